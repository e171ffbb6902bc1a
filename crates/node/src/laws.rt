// What chunks tell of nodes.
ghost use Rattle.node.specs.Nodes.{ItemsTell, ChunksTell};

use crate::child::Child;
use crate::item::Item;
use table::{Entry, Key};

// Nodes of one sort that have one chunk are the same.
fn items_tell<K: Key, I: Item<K>>()
    ensures { ItemsTell K.Key.code K.Key.before I.Item.named I.Item.value I.Item.holds K.Key.kind }
{}

// A chunk is that of one node: a leaf with its entries, or a higher node with its level and children.
pub fn nodes_read_back<K: Key>()
    ensures { ChunksTell K.Key.code K.Key.before K.Key.kind }
{
    items_tell::<K, Entry<K>>();
    items_tell::<K, Child<K>>();
}
