// Building a table's tree into a store.
ghost use Rattle.std.specs.Prelude.{◌≡◌, ◌+◌, ◌*◌, ◌<◌, ◌≤◌, map, length, vec_len, vec_capacity};
ghost use Rattle.tree.specs.Build.{PutsTree, Builds};
ghost use Rattle.tree_laws.specs.Tables.{row_of};

use crate::level::{put_level, put_node};
use crate::upper::{Built, put_upper};
use digest::Digest;
use node::{Child, Chunk, TreeFault, in_order};
use std::alloc::Global;
use store::{ChunkStore, StoreFault};
use table::{Entry, Key};

// A table has at most so many entries.
const MOST_ENTRIES: usize = 65_536;

// The tree of the empty table: one leaf without entries.
fn build_empty<K: Key, D: Digest, S: ChunkStore<D>>(
    store: &mut S,
    entries: &[Entry<K>],
) -> Result<Built, StoreFault>
    requires { length entries.now ≡ 0 }
    ensures kept { S.ChunkStore.sound store.old → S.ChunkStore.sound store.new }
    ensures does { S.ChunkStore.sound store.old → PutsTree D.Digest.digests K.Key.kind (S.ChunkStore.meaning store.old) (map (row_of K.Key.code) entries.now) result (S.ChunkStore.meaning store.new) }
{
    let put = put_node::<K, D, S, Entry<K>>(store, &mut Chunk::new(), 0, entries)?;
    Ok(Built {
        root: put.address(),
        taken: put.count(),
    })
}

// The tree of a table with entries. `children` and `spare` have room for the entries of the levels above the leaves, one level in each
// by turns: two lists that are passed along, since both are allocated before the first chunk is put.
fn build_some<K: Key, D: Digest, S: ChunkStore<D>>(
    store: &mut S,
    entries: &[Entry<K>],
    mut children: Vec<Child<K>>,
    spare: Vec<Child<K>>,
) -> Result<Built, StoreFault>
    requires some { 0 < length entries.now }
    requires few { length entries.now ≤ 65536 }
    requires empty { vec_len children ≡ 0 }
    requires room { length entries.now < 2 * vec_capacity children }
    requires spared { length entries.now + 1 < 4 * vec_capacity spare }
    ensures kept { S.ChunkStore.sound store.old → S.ChunkStore.sound store.new }
    ensures does { S.ChunkStore.sound store.old → PutsTree D.Digest.digests K.Key.kind (S.ChunkStore.meaning store.old) (map (row_of K.Key.code) entries.now) result (S.ChunkStore.meaning store.new) }
{
    let mut chunk = Chunk::new();
    let taken = put_level::<K, D, S, Entry<K>>(store, &mut chunk, 0, entries, &mut children)?;
    let upper = put_upper::<K, D, S>(store, &mut chunk, children, spare)?;
    Ok(Built {
        taken: taken + upper.taken,
        ..upper
    })
}

// Puts the tree of the table that has these entries, level by level from the leaves, left to right, up to the first refusal.
// Entries out of order or too many are refused, and so is want of memory, before anything is put.
pub fn build_tree<K: Key, D: Digest, S: ChunkStore<D>>(
    heap: Global,
    store: &mut S,
    entries: &[Entry<K>],
) -> Result<Built, TreeFault>
    ensures kept { S.ChunkStore.sound store.old → S.ChunkStore.sound store.new }
    ensures does { S.ChunkStore.sound store.old → Builds D.Digest.digests K.Key.kind K.Key.code K.Key.before (S.ChunkStore.meaning store.old) entries.now result (S.ChunkStore.meaning store.new) }
{
    if entries.len() > MOST_ENTRIES {
        return Err(TreeFault::Full);
    }
    if !in_order::<K, Entry<K>>(entries) {
        return Err(TreeFault::Unordered);
    }
    if entries.is_empty() {
        return Ok(build_empty::<K, D, S>(store, entries)?);
    }
    let children = Vec::with_capacity(heap, entries.len() / 2 + 1)?;
    let spare = Vec::with_capacity(heap, entries.len() / 4 + 2)?;
    Ok(build_some::<K, D, S>(store, entries, children, spare)?)
}
