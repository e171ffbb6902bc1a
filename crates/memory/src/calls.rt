ghost use Rattle.std.specs.Prelude.{◌≡◌, ◌≤◌, length, MatchOption};
ghost use Rattle.store.specs.Meaning.{OrMemory, put_at, after_put, cost, nothing, chunk};
ghost use Rattle.memory.specs.Table.{units, empty};
ghost use Rattle.memory.specs.Of.{table_means, table_len};

use crate::MemoryTable;
use digest::{Address, Digest};
use index::BuildAddressHasher;
use std::alloc::Global;
use std::collections::HashMap;
use store::{ChunkStore, LONGEST, Put, RootedStore, StoreFault, hand_out};

// A table has at most so many units.
const MOST_UNITS: usize = 1_048_576;

impl MemoryTable {
    // An empty table with a unit for each whole 512 bytes.
    pub fn new(heap: Global, bytes: usize) -> MemoryTable
        ensures { table_means result ≡ empty (units bytes) }
    {
        MemoryTable {
            chunks: HashMap::with_hasher(heap, BuildAddressHasher),
            free: (bytes / 512).min(MOST_UNITS),
            root: Address::ZERO,
            heap,
        }
    }

    // How many chunks there are.
    pub fn len(&self) -> usize
        ensures { result ≡ table_len self.now }
    {
        self.chunks.len()
    }

    // The chunk at an address.
    fn find(&self, address: Address) -> Option<&Vec<u8>>
        ensures { MatchOption result ((table_means self.now).at address ≡ nothing) (λ v. (table_means self.now).at address ≡ chunk v.now.items) }
    {
        self.chunks.get(&address)
    }

    // One chunk more, at an address that has nothing.
    fn take_in(&mut self, address: Address, chunk: &[u8]) -> Result<Put, StoreFault>
        requires small { length chunk.now ≤ 2488 }
        requires absent { (table_means self.old).at address ≡ nothing }
        ensures answer { OrMemory (put_at nothing self.old.free address chunk.now) result }
        ensures after { table_means self.new ≡ after_put (λ _. address) (table_means self.old) chunk.now result }
    {
        let cost = cost_of(chunk.len());
        if self.free < cost {
            return Err(StoreFault::NoRoom(address));
        }
        let kept = Vec::from_slice(self.heap, chunk)?;
        self.chunks.insert(address, kept)?;
        self.free -= cost;
        Ok(Put::Taken(address))
    }
}

// The units that a chunk of n bytes costs.
fn cost_of(n: usize) -> usize
    requires { n ≤ 2488 }
    ensures { result ≡ cost n }
{
    (32 + n + 503) / 504
}

impl<D: Digest> ChunkStore<D> for MemoryTable {
    ghost meaning = { table_means };

    ghost small = { λ s. s.small };

    ghost few = { λ s. s.few };

    fn put(&mut self, chunk: &[u8]) -> Result<Put, StoreFault> {
        if chunk.len() > LONGEST {
            return Err(StoreFault::TooLong);
        }
        let address = D::digest(chunk);
        match self.find(address) {
            Some(kept) if kept.as_slice() == chunk => Ok(Put::Held(address)),
            Some(_) => Err(StoreFault::Collision(address)),
            None => self.take_in(address, chunk),
        }
    }

    fn get(&mut self, address: Address, buffer: &mut [u8]) -> Result<usize, StoreFault> {
        let kept = self.find(address).ok_or(StoreFault::Absent(address))?;
        hand_out(kept.as_slice(), address, buffer)
    }

    fn free_units(&self) -> usize {
        self.free
    }
}

impl<D: Digest> RootedStore<D> for MemoryTable {
    fn root(&self) -> Address {
        self.root
    }

    fn set_root(&mut self, old: Address, new: Address) -> Result<(), StoreFault> {
        if self.root != old {
            return Err(StoreFault::Stale);
        }
        if self.free == 0 {
            return Err(StoreFault::NoRoom(Address::ZERO));
        }
        self.free -= 1;
        self.root = new;
        Ok(())
    }
}
