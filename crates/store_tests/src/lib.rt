// Tests of the stores and the index: each refusal through each store and through a pile, a store that is full to the unit, and collisions.
#![tactic(auto)]

ghost use Rattle.std.specs.Prelude.{◌≡◌, length};

use digest::{Address, Digest};

// A digest that collides on purpose: the address of a byte string is its length.
pub struct ByLength;

impl Digest for ByLength {
    ghost digests = { λ bs. record { w0 = length bs; w1 = 0; w2 = 0; w3 = 0 } };

    fn digest(bytes: &[u8]) -> Address {
        Address {
            w0: bytes.len() as u64,
            ..Address::ZERO
        }
    }
}

// Another one: every byte string has the address 4.
pub struct AlwaysFour;

impl Digest for AlwaysFour {
    ghost digests = { λ _. record { w0 = 4; w1 = 0; w2 = 0; w3 = 0 } };

    fn digest(_: &[u8]) -> Address {
        Address {
            w0: 4,
            ..Address::ZERO
        }
    }
}

#[cfg(test)]
mod tests {
    use super::*;
    use index::Index;
    use memory::MemoryTable;
    use std::alloc::Global;
    use std::process::Abort;
    use std::test::Fail;
    use store::{ChunkStore, Fallback, Put, RootedStore, StoreFault, Verifying};

    // The address of the chunks of a length.
    fn at(length: u64) -> Address {
        Address {
            w0: length,
            ..Address::ZERO
        }
    }

    // A refusal by its number, which the documents name.
    fn put<S: ChunkStore<ByLength>>(store: &mut S, chunk: &[u8]) -> Result<Put, u8> {
        store.put(chunk).map_err(StoreFault::number)
    }

    fn get<S: ChunkStore<ByLength>>(
        store: &mut S,
        length: u64,
        buffer: &mut [u8],
    ) -> Result<usize, u8> {
        store.get(at(length), buffer).map_err(StoreFault::number)
    }

    fn set_root<S: RootedStore<ByLength>>(
        store: &mut S,
        old: Address,
        new: Address,
    ) -> Result<(), u8> {
        store.set_root(old, new).map_err(StoreFault::number)
    }

    fn puts<S: RootedStore<ByLength>>(rt: &impl Abort, store: &mut S) {
        assert_eq!(rt; put(store, &[7; 2489]), Err(1));
        assert_eq!(rt; put(store, b"pump"), Ok(Put::Taken(at(4))));
        assert_eq!(rt; put(store, b"pump"), Ok(Put::Held(at(4))));
        assert_eq!(rt; put(store, b"flow"), Err(2));
        assert_eq!(rt; put(store, &[7; 2488]), Err(4));
        assert_eq!(rt; store.free_units(), 3);
    }

    fn gets<S: RootedStore<ByLength>>(rt: &impl Abort, store: &mut S) {
        let mut short = [165u8; 3];
        assert_eq!(rt; get(store, 9, &mut short), Err(5));
        assert_eq!(rt; get(store, 4, &mut short), Err(6));
        assert_eq!(rt; short, [165; 3]);
        let mut buffer = [165u8; 5];
        assert_eq!(rt; get(store, 4, &mut buffer), Ok(4));
        assert_eq!(rt; buffer, [b'p', b'u', b'm', b'p', 165]);
    }

    fn roots<S: RootedStore<ByLength>>(rt: &impl Abort, store: &mut S) {
        let one = Address {
            w0: 1,
            w1: 2,
            w2: 3,
            w3: 4,
        };
        assert_eq!(rt; set_root(store, one, one), Err(7));
        assert_eq!(rt; set_root(store, Address::ZERO, one), Ok(()));
        assert_eq!(rt; store.root(), one);
        assert_eq!(rt; store.free_units(), 2);
        assert_eq!(rt; put(store, &[1; 473]), Ok(Put::Taken(at(473))));
        assert_eq!(rt; put(store, b""), Err(4), "full to the unit");
        assert_eq!(rt; put(store, b"pump"), Ok(Put::Held(at(4))));
        assert_eq!(rt; set_root(store, one, Address::ZERO), Err(4));
        assert_eq!(rt; store.root(), one);
    }

    // What every rooted store does that starts empty with four free units.
    fn every_call<S: RootedStore<ByLength>>(rt: &impl Abort, store: &mut S) {
        puts(rt, store);
        gets(rt, store);
        roots(rt, store);
    }

    // Three places, two of them of one address.
    #[test]
    fn places(rt: HostRuntime) -> Result<(), Fail> {
        let mut index = Index::new(rt.alloc());
        for length in [7, 8, 7] {
            index.insert(at(length))?;
        }
        assert_eq!(rt; index.len(), 3);
        assert_eq!(rt; index.find(at(7)), Some(2));
        assert_eq!(rt; index.find(at(8)), Some(1));
        assert_eq!(rt; index.find(at(9)), None);
        Ok(())
    }

    #[test]
    fn memory_table(rt: HostRuntime) {
        every_call(&rt, &mut MemoryTable::new(rt.alloc(), 2559));
    }

    #[test]
    fn verifying(rt: HostRuntime) {
        every_call(
            &rt,
            &mut Verifying {
                inner: MemoryTable::new(rt.alloc(), 2048),
            },
        );
    }

    #[test]
    fn fallback(rt: HostRuntime) {
        let heap = rt.alloc();
        every_call(
            &rt,
            &mut Fallback {
                front: MemoryTable::new(heap, 2048),
                back: MemoryTable::new(heap, 0),
            },
        );
    }

    #[test]
    fn pile_of_three(rt: HostRuntime) {
        let heap = rt.alloc();
        let front = Verifying {
            inner: MemoryTable::new(heap, 2048),
        };
        let back = MemoryTable::new(heap, 4096);
        every_call(
            &rt,
            &mut Verifying {
                inner: Fallback { front, back },
            },
        );
    }

    // A table that has at the address 4 a chunk of seven bytes, put there by another digest.
    fn spoilt(rt: &impl Abort, heap: Global) -> MemoryTable {
        let mut table = MemoryTable::new(heap, 2048);
        assert!(rt; <MemoryTable as ChunkStore<AlwaysFour>>::put(&mut table, b"archive").is_ok());
        table
    }

    // The address 4 is bad, to put and to get, and the buffer stays.
    fn bad_at_four<S: RootedStore<ByLength>>(rt: &impl Abort, store: &mut S) {
        assert_eq!(rt; put(store, b"pump"), Err(3));
        let mut buffer = [165u8; 9];
        assert_eq!(rt; get(store, 4, &mut buffer), Err(3));
        assert_eq!(rt; buffer, [165; 9]);
        assert_eq!(rt; store.free_units(), 3);
    }

    #[test]
    fn bad_in_verifying(rt: HostRuntime) {
        let inner = spoilt(&rt, rt.alloc());
        bad_at_four(&rt, &mut Verifying { inner });
    }

    #[test]
    fn bad_in_front(rt: HostRuntime) {
        let inner = spoilt(&rt, rt.alloc());
        let front = Verifying { inner };
        let back = MemoryTable::new(rt.alloc(), 4096);
        bad_at_four(&rt, &mut Fallback { front, back });
    }

    #[test]
    fn bad_under_a_pile(rt: HostRuntime) {
        let front = spoilt(&rt, rt.alloc());
        let back = MemoryTable::new(rt.alloc(), 4096);
        bad_at_four(
            &rt,
            &mut Verifying {
                inner: Fallback { front, back },
            },
        );
    }

    // The back's chunk comes before the front's bad.
    #[test]
    fn bad_before_a_back(rt: HostRuntime) {
        let inner = spoilt(&rt, rt.alloc());
        let front = Verifying { inner };
        let mut back = MemoryTable::new(rt.alloc(), 4096);
        assert_eq!(rt; put(&mut back, b"pump"), Ok(Put::Taken(at(4))));
        let mut store = Fallback { front, back };
        assert_eq!(rt; put(&mut store, b"pump"), Ok(Put::Held(at(4))));
        assert_eq!(rt; put(&mut store, b"flow"), Err(2));
        let mut buffer = [165u8; 4];
        assert_eq!(rt; get(&mut store, 4, &mut buffer), Ok(4));
        assert_eq!(rt; buffer, *b"pump");
    }
}
