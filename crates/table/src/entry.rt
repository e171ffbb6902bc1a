// An entry of a table.
ghost use Rattle.table.specs.Table.{ByKey};

use crate::{Cell, Key};

// A key with its cell.
#[derive(Clone, Copy, PartialEq, Eq)]
pub struct Entry<K> {
    pub key: K,
    pub cell: Cell,
}

// Tables that agree at every key have the same entries in order.
pub fn tables_equal_by_key<K: Key>()
    ensures { ByKey K.Key.before }
{}
