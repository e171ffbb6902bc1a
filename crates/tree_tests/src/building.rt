// Trees built into fresh stores. The roots and the numbers of nodes were computed by another program, from the documents.
// A refusal is compared by its number, which the documents name.
use crate::build_in_pile;
use digest::{Address, Sha256};
use memory::MemoryTable;
use node::{TreeFault, is_marked};
use std::alloc::Global;
use std::process::Abort;
use std::test::Fail;
use store::{ChunkStore, StoreFault};
use table::{Cell, Entry, IntKey, Key};
use tree::{Built, build_tree};

// The entry at a place of a table: a key, and a cell of one byte.
fn entry(key: i64, place: u32) -> Result<Entry<IntKey>, Fail> {
    let byte = (place % 251) as u8;
    Ok(Entry {
        key: IntKey::new(key),
        cell: Cell::new(&[byte])?,
    })
}

// A table of consecutive keys.
fn consecutive(heap: Global, from: i64, count: u32) -> Result<Vec<Entry<IntKey>>, Fail> {
    let mut entries = Vec::new(heap);
    for (key, place) in (from..).zip(0..count) {
        entries.push(entry(key, place)?)?;
    }
    Ok(entries)
}

fn has_mark(key: i64) -> bool {
    is_marked(0, IntKey::new(key).encode().as_slice())
}

// A table of a hundred keys that are marked at level 0, or of a hundred that are not.
fn chosen(heap: Global, marks: bool) -> Result<Vec<Entry<IntKey>>, Fail> {
    let keys = (0..2_000).filter(|key| has_mark(*key) == marks);
    let mut entries = Vec::new(heap);
    for (key, place) in keys.zip(0..100) {
        entries.push(entry(key, place)?)?;
    }
    Ok(entries)
}

fn build(heap: Global, bytes: usize, entries: &[Entry<IntKey>]) -> Result<Built, TreeFault> {
    let mut store = MemoryTable::new(heap, bytes);
    build_tree::<IntKey, Sha256, MemoryTable>(heap, &mut store, entries)
}

// Whether the tree is built, or the number of the refusal.
fn outcome(heap: Global, bytes: usize, entries: &[Entry<IntKey>]) -> Result<(), u8> {
    build(heap, bytes, entries).map_err(|fault| fault.number())?;
    Ok(())
}

// The first word of the root address, and the number of nodes.
fn shape(heap: Global, entries: &[Entry<IntKey>]) -> Result<(u64, usize), TreeFault> {
    let built = build(heap, 16_777_216, entries)?;
    Ok((built.root.w0, built.taken))
}

fn expect(rt: &impl Abort, heap: Global, count: u32, root: u64, nodes: usize) -> Result<(), Fail> {
    let entries = consecutive(heap, 0, count)?;
    assert_eq!(rt; shape(heap, entries.as_slice())?, (root, nodes));
    Ok(())
}

#[test]
fn sizes(rt: HostRuntime) -> Result<(), Fail> {
    let heap = rt.alloc();
    for (count, root, nodes) in [
        (0, 0xa045_4a24_dd4b_c418, 1),
        (1, 0xeb7a_f614_ff72_fc72, 1),
        (2, 0x63fd_efe5_f259_3130, 1),
        (3, 0xda06_cb21_87f2_0c0b, 1),
        (32, 0x11d9_6172_780e_0455, 1),
        (33, 0xdeaa_c3c7_669a_3b84, 3),
        (34, 0x7424_4846_eb59_3875, 3),
        (1_000, 0x2cc1_04ab_297b_82d8, 62),
    ] {
        expect(&rt, heap, count, root, nodes)?;
    }
    Ok(())
}

#[test]
fn largest(rt: HostRuntime) -> Result<(), Fail> {
    let heap = rt.alloc();
    expect(&rt, heap, 65_536, 0xee13_b3a1_3958_9539, 4_247)?;
    let entries = consecutive(heap, 0, 65_537)?;
    assert_eq!(rt; outcome(heap, 16_777_216, entries.as_slice()), Err(17));
    Ok(())
}

// The same tree as in a bare table.
#[test]
fn in_a_pile(rt: HostRuntime) -> Result<(), Fail> {
    let heap = rt.alloc();
    let entries = consecutive(heap, 0, 1_000)?;
    let built = build_in_pile::<IntKey, Sha256>(heap, 16_777_216, entries.as_slice())?;
    assert_eq!(rt; (built.root.w0, built.taken), (0x2cc1_04ab_297b_82d8, 62));
    Ok(())
}

// By their encoded bytes the negative keys would stand behind the others.
#[test]
fn signed_keys(rt: HostRuntime) -> Result<(), Fail> {
    let heap = rt.alloc();
    assert!(rt; IntKey::new(-1).precedes(&IntKey::new(0)));
    assert!(rt; !IntKey::new(0).precedes(&IntKey::new(-1)));
    let entries = consecutive(heap, -5, 10)?;
    assert_eq!(rt;
        shape(heap, entries.as_slice())?,
        (0xd4eb_5673_aabd_1108, 1)
    );
    Ok(())
}

#[test]
fn runs_of_marks(rt: HostRuntime) -> Result<(), Fail> {
    let heap = rt.alloc();
    let without = chosen(heap, false)?;
    assert_eq!(rt;
        shape(heap, without.as_slice())?,
        (0xc7f1_fd5d_2bbe_ab36, 5)
    );
    let all = chosen(heap, true)?;
    assert_eq!(rt; shape(heap, all.as_slice())?, (0xc9f5_4513_39ae_e839, 54));
    Ok(())
}

#[test]
fn out_of_order(rt: HostRuntime) -> Result<(), Fail> {
    let heap = rt.alloc();
    assert_eq!(rt;
        outcome(heap, 65_536, &[entry(2, 0)?, entry(1, 1)?]),
        Err(33)
    );
    assert_eq!(rt;
        outcome(heap, 65_536, &[entry(2, 0)?, entry(2, 1)?]),
        Err(33)
    );
    assert_eq!(rt;
        outcome(heap, 65_536, &[entry(1, 0)?, entry(2, 1)?]),
        Ok(())
    );
    Ok(())
}

// 33 entries are three chunks of one unit; two of them stay where the third finds no room.
#[test]
fn no_room(rt: HostRuntime) -> Result<(), Fail> {
    let heap = rt.alloc();
    let entries = consecutive(heap, 0, 33)?;
    let mut store = MemoryTable::new(heap, 1_024);
    let built = build_tree::<IntKey, Sha256, MemoryTable>(heap, &mut store, entries.as_slice());
    let Err(fault) = built else {
        return Err(Fail::new("accepted"));
    };
    assert_eq!(rt; fault.number(), 4);
    assert_eq!(rt; fault.path().len(), 2);
    assert_ne!(rt; fault.address(), Address::ZERO);
    assert_eq!(rt; <MemoryTable as ChunkStore<Sha256>>::free_units(&store), 0);
    Ok(())
}

// Number, address and parts, with a blank between; a store's fault has passed the tree.
#[test]
fn refusals_in_print(rt: HostRuntime) -> Result<(), Fail> {
    let zero = "0000000000000000000000000000000000000000000000000000000000000000";
    for (fault, number, parts) in [
        (TreeFault::Malformed, "33", "tree"),
        (TreeFault::Full, "17", "tree"),
        (TreeFault::Store(StoreFault::Stale), "7", "store tree"),
    ] {
        let text = format!(in rt.alloc(); "{fault}")?;
        let wanted = format!(in rt.alloc(); "{number} {zero} {parts}")?;
        assert_eq!(rt; text.as_str(), wanted.as_str());
    }
    Ok(())
}
