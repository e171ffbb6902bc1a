// The tree of a table on its way into a store.
#![tactic(auto)]

mod build;
mod level;
mod upper;

pub use build::build_tree;
pub use upper::Built;
