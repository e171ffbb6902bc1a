// The levels above the leaves on their way into a store.
ghost use Rattle.std.specs.Prelude.{◌*◌, ◌^◌, ◌<◌, ◌≤◌, map, IfOk, vec_len, vec_capacity};
ghost use Rattle.tree.specs.Build.{Raises};
ghost use Rattle.node.specs.Items.{child_of, total_below};

use crate::level::put_level;
use digest::{Address, Digest};
use node::{Child, Chunk};
use store::{ChunkStore, StoreFault};
use table::Key;

// A tree that was put: its root address, and how many chunks the store took, those that it held already not counted.
#[derive(Clone, Copy, Debug, PartialEq, Eq)]
pub struct Built {
    pub root: Address,
    pub taken: usize,
}

// Puts the levels from the entries above the leaves up to the root. `next` has room for the entries of every second level.
pub(crate) fn put_upper<K: Key, D: Digest, S: ChunkStore<D>>(
    store: &mut S,
    chunk: &mut Chunk,
    mut here: Vec<Child<K>>,
    mut next: Vec<Child<K>>,
) -> Result<Built, StoreFault>
    requires some { 0 < vec_len here }
    requires few { vec_len here ≤ 2 ^ 15 }
    requires room { vec_len here < 2 * vec_capacity next }
    requires total { total_below (λ c. c.below) here.items < 2 ^ 32 }
    ensures kept { S.ChunkStore.sound store.old → S.ChunkStore.sound store.new }
    ensures does { S.ChunkStore.sound store.old → Raises D.Digest.digests K.Key.kind (S.ChunkStore.meaning store.old) (map (child_of K.Key.code) here.items) result (S.ChunkStore.meaning store.new) }
    ensures bound { IfOk result (λ b. b.taken ≤ 1048576) }
{
    let mut level = 1;
    let mut taken = 0;
    while here.len() > 1 {
        next.clear();
        taken += put_level::<K, D, S, Child<K>>(store, chunk, level, here.as_slice(), &mut next)?;
        std::mem::swap(&mut here, &mut next);
        level += 1;
    }
    Ok(Built {
        root: here[0].at,
        taken,
    })
}
