// Writing a node to a chunk of its own.
ghost use Rattle.std.specs.Prelude.{◌≡◌, Decides, MatchResult};
ghost use Rattle.node.specs.Chunks.{written};
ghost use Rattle.node.specs.Nodes.{WellFormed, Spells};
ghost use Rattle.node.specs.declared.fault.TreeFault.TheVariants.{Malformed as malformed};

use crate::chunk::Chunk;
use crate::fault::TreeFault;
use crate::item::Item;
use crate::layout::write_node;
use crate::order::in_order;
use table::Key;

// Whether these entries are a node of that level.
fn is_node<K: Key, I: Item<K>>(level: u8, items: &[I]) -> bool
    ensures { Decides result (WellFormed I.Item.holds K.Key.before I.Item.named level items.now) }
{
    I::is_level(level) && items.len() <= 32 && in_order::<K, I>(items)
}

// The chunk of these entries; refused where they are no node of that level: where the level holds no such entries,
// they are more than 32, or their keys do not rise.
pub fn encode<K: Key, I: Item<K>>(level: u8, items: &[I]) -> Result<Chunk, TreeFault>
    ensures { MatchResult result (λ c. Spells K.Key.code K.Key.before I.Item.named I.Item.value I.Item.holds K.Key.kind (written c) level items.now) (λ e. (e ≡ malformed) × (WellFormed I.Item.holds K.Key.before I.Item.named level items.now → ⊥)) }
{
    if !is_node::<K, I>(level, items) {
        return Err(TreeFault::Malformed);
    }
    write_node::<K, I>(level, items).ok_or(TreeFault::Malformed)
}
