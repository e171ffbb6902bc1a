// Where the nodes of a level end.
ghost use Rattle.std.specs.Prelude.{◌≡◌, ◌+◌, ◌<◌, ◌≤◌, ◌∷◌, length, take, drop};
ghost use Rattle.digest.specs.Fnv.{fnv32};
ghost use Rattle.tree_laws.specs.Boundary.{marked as marked_at, closes as closes_at, nodes};
ghost use Rattle.node.specs.Items.{item_marked};

use crate::item::Item;
use digest::{fnv1a, fnv1a_from};
use table::Key;

// The hash of the level byte and then the encoded key.
#[tactic(auto, unfolding(digest::specs::Fnv::fnv))]
fn hash(level: u8, key: &[u8]) -> u32
    ensures { result ≡ fnv32 (level ∷ key.now) }
{
    fnv1a_from(fnv1a::<u32>(&[level]), key)
}

// Whether an encoded key is marked at a level.
pub fn is_marked(level: u8, key: &[u8]) -> bool
    ensures { result ≡ marked_at level key.now }
{
    hash(level, key) < 0x1000_0000
}

// Whether a node that now holds so many entries closes after the last of them, which is marked or not and the last of the level or not.
pub fn closes(held: usize, marked: bool, last: bool) -> bool
    ensures { result ≡ closes_at held marked last }
{
    held >= 2 && marked || held == 32 || last
}

// Whether an entry is marked at a level.
fn has_mark<K: Key, I: Item<K>>(level: u8, item: &I) -> bool
    ensures { result ≡ item_marked K.Key.code I.Item.named level item.now }
{
    let code = item.key().encode();
    is_marked(level, code.as_slice())
}

// How many entries the first node of a level has; none where there are no entries.
pub fn first<K: Key, I: Item<K>>(level: u8, items: &[I]) -> usize
    ensures some { 0 < length items.now → 0 < result }
    ensures within { result ≤ length items.now }
    ensures few { result ≤ 32 }
    ensures two { result < length items.now → 2 ≤ result }
    ensures cut { 0 < length items.now → nodes (item_marked K.Key.code I.Item.named level) items.now ≡ take result items.now ∷ nodes (item_marked K.Key.code I.Item.named level) (drop result items.now) }
{
    // As a `position` the proof didn't close in two tries, and it reads no plainer: the closure has the same test, and the answer a `map_or`.
    for (i, item) in items.iter().enumerate() {
        let held = i + 1;
        if closes(held, has_mark::<K, I>(level, item), held == items.len()) {
            return held;
        }
    }
    items.len()
}
