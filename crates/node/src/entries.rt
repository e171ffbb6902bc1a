// The entries of a node one by one, read where they lie.
ghost use Rattle.std.specs.Prelude.{◌≡◌};
ghost use Rattle.std.specs.Iterator.{at_most};
ghost use Rattle.node.specs.Items.{item_bytes};
ghost use Rattle.node.specs.Nodes.{Steps};

use crate::decoding::{Node, read_item};
use crate::item::Item;
use std::marker::PhantomData;
use table::Key;

// The entries of a node from one place on: the bytes from there on, and how many entries they are.
#[derive_where(Clone, Copy)]
pub struct Items<'a, K, I> {
    pub rest: &'a [u8],
    pub left: usize,
    of: PhantomData<(K, I)>,
}

impl<'a> Node<'a> {
    // Its entries.
    pub fn items<K: Key, I: Item<K>>(&self) -> Items<'a, K, I>
        ensures rest { result.rest.now ≡ self.now.body.now }
        ensures left { result.left ≡ self.now.count }
    {
        Items {
            rest: self.body,
            left: self.count,
            of: PhantomData,
        }
    }
}

impl<'a, K: Key, I: Item<K>> Iterator for Items<'a, K, I> {
    type Item = I;

    ghost next_gives = { λ s r t. Steps (item_bytes K.Key.code I.Item.named I.Item.value) s.rest.now s.left r t.rest.now t.left };

    ghost remaining = { λ s. at_most s.left };

    fn next(&mut self) -> Option<I> {
        if self.left == 0 {
            return None;
        }
        let (item, rest) = read_item::<K, I>(self.rest)?;
        self.rest = rest;
        self.left -= 1;
        Some(item)
    }
}

// It holds bytes and a number and only names `K` and `I`; by its marker alone it would be `Send` and `Sync` only where they are.
unsafe impl<'a, K, I> Send for Items<'a, K, I> {}

unsafe impl<'a, K, I> Sync for Items<'a, K, I> {}
