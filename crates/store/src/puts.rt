// Chunks put one after another, up to the first refusal.
ghost use Rattle.std.specs.Prelude.{◌≡◌, ◌≤◌, map, Ok, vec_items};
ghost use Rattle.store.specs.Puts.{address_in, takes, PutsInTurn};

use crate::{ChunkStore, Put, StoreFault};
use digest::{Address, Digest};

// Where a run of puts stopped: how many chunks were accepted before, how many of them were taken, and what the next one met.
#[derive(Clone, Copy, Debug, PartialEq, Eq)]
pub struct Stopped {
    pub accepted: usize,
    pub taken: usize,
    pub fault: StoreFault,
}

impl From<Stopped> for StoreFault {
    ghost from_gives = { λ s f. f ≡ s.fault };

    fn from(stopped: Stopped) -> StoreFault {
        stopped.fault
    }
}

impl Put {
    // The address of the chunk.
    pub fn address(self) -> Address
        ensures { result ≡ address_in self }
    {
        match self {
            Put::Held(a) | Put::Taken(a) => a,
        }
    }

    // 1 for a chunk that was taken.
    pub fn count(self) -> usize
        ensures value { result ≡ takes (Ok self) }
        ensures bound { result ≤ 1 }
    {
        match self {
            Put::Taken(_) => 1,
            Put::Held(_) => 0,
        }
    }
}

// Puts the chunks in turn and stops at the first refusal. Answers how many were taken, those that were held already not counted.
pub fn put_all<D: Digest, S: ChunkStore<D>>(
    store: &mut S,
    chunks: &[Vec<u8>],
) -> Result<usize, Stopped>
    ensures kept { S.ChunkStore.sound store.old → S.ChunkStore.sound store.new }
    ensures does { S.ChunkStore.sound store.old → PutsInTurn D.Digest.digests (S.ChunkStore.meaning store.old) (map vec_items chunks.now) result (S.ChunkStore.meaning store.new) }
{
    let mut taken = 0;
    for (accepted, chunk) in chunks.iter().enumerate() {
        let put = store.put(chunk.as_slice()).map_err(|fault| Stopped {
            accepted,
            taken,
            fault,
        })?;
        taken += put.count();
    }
    Ok(taken)
}
