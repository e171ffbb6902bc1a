// Layers piled on tables, and what a fresh pile does, with no condition on its state.
ghost use Rattle.std.specs.Prelude.{◌≡◌};
ghost use Rattle.memory.specs.Of.{table_means};
ghost use Rattle.memory.specs.Piles.{Keeps};
ghost use Rattle.memory.specs.Table.{units, empty};

use crate::MemoryTable;
use digest::Digest;
use std::alloc::Global;
use store::{ChunkStore, Fallback, StoreFault, Verifying};

// Three layers over two tables: a checked front before a back, and all of it checked once more.
pub type Pile = Verifying<Fallback<Verifying<MemoryTable>, MemoryTable>>;

// A pile over two empty tables: the front has a unit for each whole 512 bytes, and the back has none.
pub fn fresh_pile(heap: Global, bytes: usize) -> Pile
    ensures front { table_means result.inner.front.inner ≡ empty (units bytes) }
    ensures back { table_means result.inner.back ≡ empty 0 }
{
    let front = Verifying {
        inner: MemoryTable::new(heap, bytes),
    };
    let back = MemoryTable::new(heap, 0);
    Verifying {
        inner: Fallback { front, back },
    }
}

// Keeps a chunk in a fresh pile and reads it back.
pub fn keep_in_pile<D: Digest>(
    heap: Global,
    bytes: usize,
    chunk: &[u8],
    buffer: &mut [u8],
) -> Result<usize, StoreFault>
    ensures { Keeps D.Digest.digests (units bytes) chunk.now buffer.old result buffer.new }
{
    let mut pile = fresh_pile(heap, bytes);
    <Pile as ChunkStore<D>>::put(&mut pile, chunk)?;
    <Pile as ChunkStore<D>>::get(&mut pile, D::digest(chunk), buffer)
}
