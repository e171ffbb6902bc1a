// The nodes of a tree: their entries, where they end, and their chunks, written and read in place.
#![tactic(auto)]

mod boundary;
mod child;
mod chunk;
mod decoding;
mod encoding;
mod entries;
mod fault;
mod item;
mod laws;
mod layout;
mod order;
mod writing;

pub use boundary::{closes, first, is_marked};
pub use child::Child;
pub use chunk::Chunk;
pub use decoding::{Node, decode};
pub use encoding::encode;
pub use entries::Items;
pub use fault::TreeFault;
pub use item::Item;
pub use laws::nodes_read_back;
pub use layout::write_node;
pub use order::in_order;
