// The order of entries.
ghost use Rattle.std.specs.Prelude.{◌≡◌, Decides};
ghost use Rattle.table.specs.Table.{Rising};

use crate::item::Item;
use table::Key;

// Whether each key comes before the next.
pub fn in_order<K: Key, I: Item<K>>(items: &[I]) -> bool
    ensures { Decides result (Rising (λ x y. K.Key.before (I.Item.named x) (I.Item.named y)) items.now) }
{
    items.is_sorted_by(|before, item| before.key().precedes(&item.key()))
}
