// Reading a chunk: a node is taken as it lies in its bytes, or refused.
ghost use Rattle.std.specs.Prelude.{◌≡◌, ℕ, true, ◌&&◌, List, ◌++◌, Decides, MatchOption, MatchResult, ◌==◌, ◌≢◌, nat_le};
ghost use Rattle.node.specs.Items.{item_bytes};
ghost use Rattle.node.specs.Nodes.{Listed, Views, SpellsNone, NodeIn, NoNode};
ghost use Rattle.node.specs.declared.fault.TreeFault.TheVariants.{Malformed as malformed};

use crate::child::Child;
use crate::fault::TreeFault;
use crate::item::{Item, read_sized};
use table::{Entry, Key};

// A node as it lies in its chunk: its level, the number of its entries, and their bytes.
#[derive(Clone, Copy)]
pub struct Node<'a> {
    pub level: u8,
    pub count: usize,
    pub body: &'a [u8],
}

// The entry at the start of `s`, and the rest of `s`.
pub fn read_item<K: Key, I: Item<K>>(s: &[u8]) -> Option<(I, &[u8])>
    ensures { MatchOption result ((x : I) (t : List ℕ) → s.now ≢ item_bytes K.Key.code I.Item.named I.Item.value x ++ t) (λ p. s.now ≡ item_bytes K.Key.code I.Item.named I.Item.value p.0 ++ p.1.now) }
{
    let (code, behind) = read_sized(s)?;
    let key = K::decode(code)?;
    I::read_value(key, behind)
}

// Whether a key may stand behind the one before, if there is one.
fn is_next<K: Key>(last: Option<K>, key: K) -> bool
    ensures { MatchOption last (result ≡ true) (λ k. result ≡ K.Key.before k key) }
{
    last.is_none_or(|before| before.precedes(&key))
}

// Whether `body` is so many entries, one behind the other in key order, to the last byte.
fn is_list<K: Key, I: Item<K>>(count: usize, body: &[u8]) -> bool
    ensures { Decides result ((xs : List I) × Listed K.Key.code K.Key.before I.Item.named I.Item.value count body.now xs) }
{
    let mut rest = body;
    let mut last = None;
    for _ in 0..count {
        let Some(read) = read_item::<K, I>(rest) else {
            return false;
        };
        // A step of its own: by a pattern in the `let .. else` the proof did not close.
        let (item, behind) = read;
        let key = item.key();
        if !is_next(last, key) {
            return false;
        }
        last = Some(key);
        rest = behind;
    }
    rest.is_empty()
}

// Whether a node of such entries may begin so: the kind is that of the keys, the level holds such entries, and there are at most 32.
fn is_head<K: Key, I: Item<K>>(kind: u8, level: u8, count: u8) -> bool
    ensures { result ≡ (kind == K.Key.kind && (I.Item.holds level && nat_le count 32)) }
{
    kind == K::number() && I::is_level(level) && count <= 32
}

// The node of such entries that a chunk is; none where it is no such node.
fn decode_items<K: Key, I: Item<K>>(chunk: &[u8]) -> Option<Node<'_>>
    ensures { MatchOption result (SpellsNone K.Key.code K.Key.before I.Item.named I.Item.value I.Item.holds K.Key.kind chunk.now) (λ n. Views K.Key.code K.Key.before I.Item.named I.Item.value I.Item.holds K.Key.kind chunk.now n.level n.count n.body.now) }
{
    let [1, kind, level, count, body @ ..] = chunk else {
        return None;
    };
    if !is_head::<K, I>(*kind, *level, *count) {
        return None;
    }
    let count = usize::from(*count);
    is_list::<K, I>(count, body).then_some(Node {
        level: *level,
        count,
        body,
    })
}

// The node that a chunk is. A chunk that is no well-formed node of this kind of keys, to the last byte, is refused.
pub fn decode<K: Key>(chunk: &[u8]) -> Result<Node<'_>, TreeFault>
    ensures { MatchResult result (λ n. NodeIn K.Key.code K.Key.before K.Key.kind chunk.now n.level n.count n.body.now) (λ e. (e ≡ malformed) × NoNode K.Key.code K.Key.before K.Key.kind chunk.now) }
{
    decode_items::<K, Entry<K>>(chunk)
        .or_else(|| decode_items::<K, Child<K>>(chunk))
        .ok_or(TreeFault::Malformed)
}
