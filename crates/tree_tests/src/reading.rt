// Chunks that are nodes, and chunks that are malformed in one way each. A refusal is compared by its number, which the documents name.
use node::{Child, decode, encode};
use std::process::Abort;
use std::test::Fail;
use table::{BytesKey, Cell, Entry, IntKey};

// The level and the number of entries, or the number of the refusal.
fn read(chunk: &[u8]) -> Result<(u8, usize), u8> {
    let node = decode::<BytesKey>(chunk).map_err(|fault| fault.number())?;
    Ok((node.level, node.count))
}

fn refused(rt: &impl Abort, chunk: &[u8]) {
    assert_eq!(rt; read(chunk), Err(33));
}

#[test]
fn leaves(rt: HostRuntime) {
    assert_eq!(rt; read(&[1, 2, 0, 0]), Ok((0, 0)));
    assert_eq!(rt; read(&[1, 2, 0, 1, 1, 2, 1, 7]), Ok((0, 1)));
    assert_eq!(rt; read(&[1, 2, 0, 2, 0, 0, 1, 2, 1, 7]), Ok((0, 2)));
}

#[test]
fn heads(rt: HostRuntime) {
    refused(&rt, &[]);
    refused(&rt, &[1, 2, 0]);
    refused(&rt, &[2, 2, 0, 0]);
    refused(&rt, &[1, 1, 0, 0]);
    refused(&rt, &[1, 2, 16, 0]);
    refused(&rt, &[1, 2, 0, 33]);
}

#[test]
fn entries(rt: HostRuntime) {
    refused(&rt, &[1, 2, 0, 1]);
    refused(&rt, &[1, 2, 0, 1, 2, 2]);
    refused(&rt, &[1, 2, 0, 1, 1, 2]);
    refused(&rt, &[1, 2, 0, 1, 1, 2, 2, 7]);
    refused(&rt, &[1, 2, 0, 1, 1, 2, 1, 7, 0]);
    refused(&rt, &[1, 2, 0, 2, 1, 3, 0, 1, 2, 0]);
    refused(&rt, &[1, 2, 0, 2, 1, 2, 0, 1, 2, 0]);
    refused(&rt, &[1, 2, 0, 0, 0]);
}

// A key of 33 bytes, and a cell of 41.
#[test]
fn limits(rt: HostRuntime) {
    let mut long_key = [7u8; 39];
    long_key[0..5].copy_from_slice(&[1, 2, 0, 1, 33]);
    long_key[38] = 0;
    refused(&rt, &long_key);
    let mut long_cell = [7u8; 48];
    long_cell[0..7].copy_from_slice(&[1, 2, 0, 1, 1, 2, 41]);
    refused(&rt, &long_cell);
    assert!(rt; BytesKey::new(&[0; 32]).is_ok());
    assert!(rt; BytesKey::new(&[0; 33]).is_err());
    assert!(rt; Cell::new(&[0; 40]).is_ok());
    assert!(rt; Cell::new(&[0; 41]).is_err());
}

// A child is the key, 32 bytes of address and 4 of count: one byte less is no node.
#[test]
fn higher_nodes(rt: HostRuntime) {
    let mut chunk = [0u8; 42];
    chunk[0..6].copy_from_slice(&[1, 2, 1, 1, 1, 2]);
    assert_eq!(rt; read(&chunk), Ok((1, 1)));
    refused(&rt, &chunk[0..41]);
    chunk[2] = 15;
    assert_eq!(rt; read(&chunk), Ok((15, 1)));
    chunk[2] = 0;
    refused(&rt, &chunk);
}

// An integer key has 8 bytes and no other number.
#[test]
fn integer_keys(rt: HostRuntime) {
    assert!(rt; decode::<IntKey>(&[1, 1, 0, 1, 8, 0, 0, 0, 0, 0, 0, 0, 1, 0]).is_ok());
    assert!(rt; decode::<IntKey>(&[1, 1, 0, 1, 7, 0, 0, 0, 0, 0, 0, 1, 0]).is_err());
    assert!(rt; decode::<IntKey>(&[1, 1, 0, 1, 9, 0, 0, 0, 0, 0, 0, 0, 0, 1, 0]).is_err());
}

// The entries of a leaf come back in place, and the chunk is the one that was read.
#[test]
fn read_back(rt: HostRuntime) -> Result<(), Fail> {
    let chunk = [1, 2, 0, 2, 1, 2, 1, 7, 1, 3, 0];
    let node = decode::<BytesKey>(&chunk)?;
    let mut entries = node.items::<BytesKey, Entry<BytesKey>>();
    let (Some(first), Some(second), None) = (entries.next(), entries.next(), entries.next()) else {
        return Err(Fail::new("the leaf has not two entries"));
    };
    assert_eq!(rt; first.key.as_slice(), [2].as_slice());
    assert_eq!(rt; first.cell.as_slice(), [7].as_slice());
    assert_eq!(rt; second.key.as_slice(), [3].as_slice());
    assert!(rt; second.cell.as_slice().is_empty());
    assert!(rt; encode::<BytesKey, Entry<BytesKey>>(0, &[second, first]).is_err());
    let again = encode::<BytesKey, Entry<BytesKey>>(0, &[first, second])?;
    assert_eq!(rt; again.as_slice(), chunk.as_slice());
    Ok(())
}

// The empty higher node of a level that there is, and of two that there are not.
#[test]
fn levels(rt: HostRuntime) {
    let none: [Child<BytesKey>; 0] = [];
    assert!(rt; encode::<BytesKey, Child<BytesKey>>(0, &none).is_err());
    assert!(rt; encode::<BytesKey, Child<BytesKey>>(1, &none).is_ok());
    assert!(rt; encode::<BytesKey, Child<BytesKey>>(16, &none).is_err());
}
