// SHA-256: whole blocks, the padding behind the last of them, and the address of the result.
mod constants;
mod functions;
mod rounds;

ghost use Rattle.std.specs.Prelude.{◌≡◌, ◌+◌, ◌-◌, ◌*◌, ◌/◌, ◌%◌, ◌^◌, ◌<◌, ◌≤◌, ◌∷◌, ◌++◌, length, replicate};
ghost use Rattle.digest.specs.Bytes.{word_bytes};
ghost use Rattle.digest.specs.Sha256.{blocks, initial, closing, bytes_of_words, PaddingFills, sha256, sha256_address};
ghost use Rattle.digest.specs.Fits.{sha256_whole};

use self::functions::Words;
use self::rounds::take_block;
use crate::{Address, Digest, WholeDigest};

// The hash value before the first block.
fn start() -> Words
    ensures { result ≡ initial }
{
    Words {
        a: 0x6a09e667,
        b: 0xbb67ae85,
        c: 0x3c6ef372,
        d: 0xa54ff53a,
        e: 0x510e527f,
        f: 0x9b05688c,
        g: 0x1f83d9ab,
        h: 0x5be0cd19,
    }
}

// The hash value after the whole blocks at the front of `bytes`.
fn take_blocks(start: Words, bytes: &[u8]) -> Words
    ensures { result ≡ blocks (length bytes.now / 64) bytes.now start }
{
    let (whole, _) = bytes.as_chunks::<64>();
    let mut s = start;
    for block in whole {
        s = take_block(s, block);
    }
    s
}

// The length of the last blocks, where n bytes are left over and the padding follows them: one block or two.
fn padded_length(n: usize) -> usize
    requires { n < 64 }
    ensures { result ≡ (n + 72) / 64 * 64 }
{
    if n < 56 { 64 } else { 128 }
}

// Fills `buf` with `rest`, the one bit, zeros and the length in bits.
fn close(buf: &mut [u8], rest: &[u8], bits: u64)
    requires room { length rest.now + 9 ≤ length buf.old }
    ensures { buf.new ≡ rest.now ++ (128 ∷ (replicate (length buf.old - (length rest.now + 9)) 0 ++ word_bytes bits)) }
{
    let n = rest.len();
    let end = buf.len() - 8;
    let tail = bits.to_be_bytes();
    buf[0..n].copy_from_slice(rest);
    buf[n] = 128;
    buf[n + 1..end].fill(0);
    buf[end..].copy_from_slice(&tail);
}

// The hash value after the bytes past the whole blocks and the padding.
fn finish(s: Words, rest: &[u8], bits: u64) -> Words
    requires { length rest.now < 64 }
    ensures { result ≡ blocks ((length rest.now + 72) / 64) (rest.now ++ closing (length rest.now) bits) s }
{
    // One block or two, in a place of fixed size for both: nothing is allocated, and `close` finds the length's place from the end.
    let mut last = [0u8; 128];
    let end = padded_length(rest.len());
    let buf = &mut last[0..end];
    close(buf, rest, bits);
    take_blocks(s, buf)
}

// The words' bytes, the highest of each first.
fn output(s: Words) -> [u8; 32]
    ensures { result ≡ bytes_of_words s }
{
    let [a0, a1, a2, a3] = s.a.to_be_bytes();
    let [b0, b1, b2, b3] = s.b.to_be_bytes();
    let [c0, c1, c2, c3] = s.c.to_be_bytes();
    let [d0, d1, d2, d3] = s.d.to_be_bytes();
    let [e0, e1, e2, e3] = s.e.to_be_bytes();
    let [f0, f1, f2, f3] = s.f.to_be_bytes();
    let [g0, g1, g2, g3] = s.g.to_be_bytes();
    let [h0, h1, h2, h3] = s.h.to_be_bytes();
    [
        a0, a1, a2, a3, b0, b1, b2, b3, c0, c1, c2, c3, d0, d1, d2, d3, e0, e1, e2, e3, f0, f1, f2,
        f3, g0, g1, g2, g3, h0, h1, h2, h3,
    ]
}

// The length in bits, modulo 2^64.
fn bit_length(n: usize) -> u64
    ensures { result ≡ 8 * n % 2 ^ 64 }
{
    (n as u64).wrapping_mul(8)
}

// The digest SHA-256. It has no values: code names it as a type.
pub enum Sha256 {}

impl Sha256 {
    // The 32 bytes that the standard defines for any string of bytes.
    pub fn message_digest(message: &[u8]) -> [u8; 32]
        ensures { result ≡ sha256 message.now }
    {
        let n = message.len();
        let s = take_blocks(start(), message);
        output(finish(s, &message[n - n % 64..], bit_length(n)))
    }
}

impl Digest for Sha256 {
    ghost digests = { sha256_address };

    fn digest(bytes: &[u8]) -> Address {
        Address::from(Sha256::message_digest(bytes))
    }
}

impl WholeDigest for Sha256 {
    ghost whole = { sha256_whole };
}

// The padding fills whole blocks, and takes no more than it must.
pub fn padding_fills()
    ensures { PaddingFills }
{}
