// Nodes as chunks.
ghost use Rattle.std.specs.Prelude.{◌≡◌, ◌+◌, ◌<◌, ◌≤◌, ◌++◌, length, MatchBool, MatchOption};
ghost use Rattle.node.specs.Chunks.{written};
ghost use Rattle.node.specs.Items.{item_bytes, item_chunk};

use crate::chunk::Chunk;
use crate::item::Item;
use table::Key;

// Writes an entry behind what was written.
fn write_item<K: Key, I: Item<K>>(chunk: &mut Chunk, item: &I)
    requires { chunk.old.len + 74 ≤ 2488 }
    ensures text { written chunk.new ≡ written chunk.old ++ item_bytes K.Key.code I.Item.named I.Item.value item.now }
    ensures len { chunk.new.len ≤ chunk.old.len + 74 }
{
    let code = item.key().encode();
    chunk.append_sized(code.as_slice());
    item.write_value(chunk);
}

impl Chunk {
    // Writes a node in the place of what was written; not where it has more than 32 entries, and then all stays. One buffer serves for many
    // nodes, so that none is filled with zeros or copied for each. The level is no part of a struct with the entries: a caller keeps one level,
    // and hands on other entries for each of its nodes.
    pub fn write_node<K: Key, I: Item<K>>(&mut self, level: u8, items: &[I]) -> bool
        ensures { MatchBool result ((length items.now ≤ 32) × (written self.new ≡ item_chunk K.Key.code I.Item.named I.Item.value K.Key.kind level items.now)) ((32 < length items.now) × (self.new ≡ self.old)) }
    {
        if items.len() > 32 {
            return false;
        }
        self.clear();
        self.push(1);
        self.push(K::number());
        self.push(level);
        self.push(items.len() as u8);
        for item in items {
            write_item::<K, I>(self, item);
        }
        true
    }
}

// The chunk of a node; none where it has more than 32 entries.
pub fn write_node<K: Key, I: Item<K>>(level: u8, items: &[I]) -> Option<Chunk>
    ensures { MatchOption result (32 < length items.now) (λ c. (length items.now ≤ 32) × (written c ≡ item_chunk K.Key.code I.Item.named I.Item.value K.Key.kind level items.now)) }
{
    let mut chunk = Chunk::new();
    chunk.write_node::<K, I>(level, items).then_some(chunk)
}
