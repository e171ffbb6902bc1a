// Tests of tables, nodes and building: roots that another program computed, and nodes that are malformed in each way.
#![tactic(auto)]

#[cfg(test)]
mod building;
mod piles;
#[cfg(test)]
mod reading;

pub use piles::build_in_pile;
