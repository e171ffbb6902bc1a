// A tree in a pile of layers, with a promise that has no condition on the store's state.
ghost use Rattle.memory.specs.Table.{units};
ghost use Rattle.tree_tests.specs.Piles.{BuildsFresh};

use digest::Digest;
use memory::{Pile, fresh_pile};
use node::TreeFault;
use std::alloc::Global;
use table::{Entry, Key};
use tree::{Built, build_tree};

// Builds the tree of a table into a fresh pile with so many bytes.
pub fn build_in_pile<K: Key, D: Digest>(
    heap: Global,
    bytes: usize,
    entries: &[Entry<K>],
) -> Result<Built, TreeFault>
    ensures { BuildsFresh D.Digest.digests K.Key.kind K.Key.code K.Key.before (units bytes) entries.now result }
{
    let mut pile = fresh_pile(heap, bytes);
    build_tree::<K, D, Pile>(heap, &mut pile, entries)
}
