// Computes digests that are known from elsewhere and says of each whether it is the same:
// the example messages published for SHA-256, messages around each edge of the padding, and published hashes of FNV-1a.
#![tactic(auto)]

use digest::{Digest, Fnv64, Sha256, fnv1a};

// How many were the same, and how many differed.
#[derive(Clone, Copy, Default)]
struct Tally {
    same: u32,
    differing: u32,
}

impl Tally {
    // Counts one more, and prints it with a word for which it was.
    fn note(
        &mut self,
        rt: &HostRuntime,
        name: &str,
        computed: &str,
        known: &str,
    ) -> anyhow::Result<()> {
        let verdict = if computed == known {
            self.same = self.same.saturating_add(1);
            "same"
        } else {
            self.differing = self.differing.saturating_add(1);
            "differs"
        };
        println!(rt; "{name:<12} {computed} {verdict}")?;
        Ok(())
    }

    fn sha256(
        &mut self,
        rt: &HostRuntime,
        name: &str,
        message: &[u8],
        known: &str,
    ) -> anyhow::Result<()> {
        let address = Sha256::digest(message);
        let computed = format!(in rt.alloc(); "{address}")?;
        self.note(rt, name, computed.as_str(), known)
    }
}

// The example messages published for the standard.
fn examples(rt: &HostRuntime, tally: &mut Tally) -> anyhow::Result<()> {
    let messages: [(&str, &[u8], &str); 4] = [
        (
            "empty",
            b"",
            "e3b0c44298fc1c149afbf4c8996fb92427ae41e4649b934ca495991b7852b855",
        ),
        (
            "abc",
            b"abc",
            "ba7816bf8f01cfea414140de5dae2223b00361a396177a9cb410ff61f20015ad",
        ),
        (
            "448 bits",
            b"abcdbcdecdefdefgefghfghighijhijkijkljklmklmnlmnomnopnopq",
            "248d6a61d20638b8e5c026930c3e6039a33ce45964ff2167f6ecedd419db06c1",
        ),
        (
            "896 bits",
            b"abcdefghbcdefghicdefghijdefghijkefghijklfghijklmghijklmnhijklmnoijklmnopjklmnopqklmnopqrlmnopqrsmnopqrstnopqrstu",
            "cf5b16a778af8380036ce59e7b0492370b249b11e8f07a51afac45037afee9d1",
        ),
    ];
    for (name, message, known) in messages {
        tally.sha256(rt, name, message, known)?;
    }
    // Behind the others, so that they stand in print where there is no memory for it.
    let million = vec![in rt.alloc(); b'a'; 1_000_000]?;
    tally.sha256(
        rt,
        "a million a",
        million.as_slice(),
        "cdc76e5c9914fb9281a1c7e284d73e67f1809a48a497200e046d39ccc7112cd0",
    )
}

// Lengths around those at which the padding takes one block more, and the digests that OpenSSL computes of the bytes 0, 1, 2 and so on.
const PADDING_EDGES: [(u8, &str); 9] = [
    (
        55,
        "463eb28e72f82e0a96c0a4cc53690c571281131f672aa229e0d45ae59b598b59",
    ),
    (
        56,
        "da2ae4d6b36748f2a318f23e7ab1dfdf45acdc9d049bd80e59de82a60895f562",
    ),
    (
        57,
        "2fe741af801cc238602ac0ec6a7b0c3a8a87c7fc7d7f02a3fe03d1c12eac4d8f",
    ),
    (
        63,
        "29af2686fd53374a36b0846694cc342177e428d1647515f078784d69cdb9e488",
    ),
    (
        64,
        "fdeab9acf3710362bd2658cdc9a29e8f9c757fcf9811603a8c447cd1d9151108",
    ),
    (
        65,
        "4bfd2c8b6f1eec7a2afeb48b934ee4b2694182027e6d0fc075074f2fabb31781",
    ),
    (
        119,
        "da18797ed7c3a777f0847f429724a2d8cd5138e6ed2895c3fa1a6d39d18f7ec6",
    ),
    (
        120,
        "f52b23db1fbb6ded89ef42a23ce0c8922c45f25c50b568a93bf1c075420bbb7c",
    ),
    (
        128,
        "471fb943aa23c511f6f72f8d1652d9c880cfa392ad80503120547703e56a2be5",
    ),
];

fn padding_edges(rt: &HostRuntime, tally: &mut Tally) -> anyhow::Result<()> {
    for (length, known) in PADDING_EDGES {
        let message: Vec<u8> = (0..length).collect(rt.alloc())?;
        let name = format!(in rt.alloc(); "{length} bytes")?;
        tally.sha256(rt, name.as_str(), message.as_slice(), known)?;
    }
    Ok(())
}

// Hashes that the authors of FNV publish.
fn fnv(rt: &HostRuntime, tally: &mut Tally) -> anyhow::Result<()> {
    let messages: [(&[u8], &str, &str); 3] = [
        (
            b"",
            "811c9dc5",
            "cbf29ce484222325000000000000000000000000000000000000000000000000",
        ),
        (
            b"a",
            "e40c292c",
            "af63dc4c8601ec8c000000000000000000000000000000000000000000000000",
        ),
        (
            b"foobar",
            "bf9cf968",
            "85944171f73967e8000000000000000000000000000000000000000000000000",
        ),
    ];
    for (message, known32, known64) in messages {
        let hash = fnv1a::<u32>(message);
        let computed = format!(in rt.alloc(); "{hash:08x}")?;
        tally.note(rt, "FNV-1a-32", computed.as_str(), known32)?;
        let address = Fnv64::digest(message);
        let computed = format!(in rt.alloc(); "{address}")?;
        tally.note(rt, "FNV-1a-64", computed.as_str(), known64)?;
    }
    Ok(())
}

fn run(rt: &HostRuntime) -> anyhow::Result<()> {
    let mut tally = Tally::default();
    examples(rt, &mut tally)?;
    padding_edges(rt, &mut tally)?;
    fnv(rt, &mut tally)?;
    let Tally { same, differing } = tally;
    println!(rt; "{same} the same, {differing} differ")?;
    Ok(())
}

fn main(rt: HostRuntime) -> anyhow::Result<()> {
    run(&rt)
}
