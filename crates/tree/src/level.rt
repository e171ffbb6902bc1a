// One level of a tree on its way into a store.
ghost use Rattle.std.specs.Prelude.{◌≡◌, ◌+◌, ◌*◌, ◌^◌, ◌<◌, ◌≤◌, map, length, IfOk, vec_len, vec_capacity, OnOk};
ghost use Rattle.store.specs.Meaning.{OrMemory, put_answer, after_put};
ghost use Rattle.store.specs.Puts.{PutsInTurn};
ghost use Rattle.tree_laws.specs.Boundary.{nodes};
ghost use Rattle.tree_laws.specs.Tree.{last_of};
ghost use Rattle.node.specs.Items.{item_chunk, item_marked, level_above, level_chunks, child_of, total_below};

use digest::{Address, Digest};
use node::{Child, Chunk, Item, first};
use store::{ChunkStore, Put, Stopped, StoreFault};
use table::Key;

// The entry above a node that stands at an address.
fn above<K: Key, I: Item<K>>(items: &[I], at: Address) -> Child<K>
    requires some { 0 < length items.now }
    requires few { total_below I.Item.below items.now < 2 ^ 32 }
    ensures key { K.Key.code result.key ≡ last_of (λ x. K.Key.code (I.Item.named x)) items.now }
    ensures place { result.at ≡ at }
    ensures count { result.below ≡ total_below I.Item.below items.now }
{
    Child {
        key: items.last().unwrap().key(),
        at,
        below: items.iter().map(|item| item.count_below()).sum(),
    }
}

// Puts a node. Its chunk is written in a buffer that goes through all calls of a build, so that none is filled or copied for each node.
pub(crate) fn put_node<K: Key, D: Digest, S: ChunkStore<D>, I: Item<K>>(
    store: &mut S,
    chunk: &mut Chunk,
    level: u8,
    items: &[I],
) -> Result<Put, StoreFault>
    requires { length items.now ≤ 32 }
    ensures kept { S.ChunkStore.sound store.old → S.ChunkStore.sound store.new }
    ensures answer { S.ChunkStore.sound store.old → OrMemory (put_answer D.Digest.digests (S.ChunkStore.meaning store.old) (item_chunk K.Key.code I.Item.named I.Item.value K.Key.kind level items.now)) result }
    ensures after { S.ChunkStore.sound store.old → S.ChunkStore.meaning store.new ≡ after_put D.Digest.digests (S.ChunkStore.meaning store.old) (item_chunk K.Key.code I.Item.named I.Item.value K.Key.kind level items.now) result }
{
    if !chunk.write_node::<K, I>(level, items) {
        return Err(StoreFault::TooLong);
    }
    store.put(chunk.as_slice())
}

// Puts the nodes of a level from the left, up to the first refusal, and makes the entries of the level above.
pub(crate) fn put_level<K: Key, D: Digest, S: ChunkStore<D>, I: Item<K>>(
    store: &mut S,
    chunk: &mut Chunk,
    level: u8,
    items: &[I],
    out: &mut Vec<Child<K>>,
) -> Result<usize, Stopped>
    requires empty { vec_len out.old ≡ 0 }
    requires room { length items.now < 2 * vec_capacity out.old }
    requires few { total_below I.Item.below items.now < 2 ^ 32 }
    ensures kept { S.ChunkStore.sound store.old → S.ChunkStore.sound store.new }
    ensures does { S.ChunkStore.sound store.old → PutsInTurn D.Digest.digests (S.ChunkStore.meaning store.old) (level_chunks K.Key.code I.Item.named I.Item.value K.Key.kind level items.now) result (S.ChunkStore.meaning store.new) }
    ensures long { OnOk result (vec_len out.new ≡ length (nodes (item_marked K.Key.code I.Item.named level) items.now)) }
    ensures total { OnOk result (total_below (λ c. c.below) out.new.items ≡ total_below I.Item.below items.now) }
    ensures above { OnOk result (S.ChunkStore.sound store.old → map (child_of K.Key.code) out.new.items ≡ level_above K.Key.code I.Item.named I.Item.value D.Digest.digests I.Item.below K.Key.kind level items.now) }
    ensures capacity { vec_capacity out.new ≡ vec_capacity out.old }
    ensures count { IfOk result (λ n. n ≤ vec_len out.new) }
{
    let mut taken = 0;
    let mut rest = items;
    while !rest.is_empty() {
        let (node, after) = rest.split_at(first::<K, I>(level, rest));
        let put = put_node::<K, D, S, I>(store, chunk, level, node).map_err(|fault| Stopped {
            accepted: out.len(),
            taken,
            fault,
        })?;
        taken += put.count();
        out.push_reserved(above::<K, I>(node, put.address()));
        rest = after;
    }
    Ok(taken)
}
