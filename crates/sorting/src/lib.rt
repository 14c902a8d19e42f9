// Entries of the remember table in any order, sorted by slot and merged with those that rise already.
#![tactic(auto)]

pub mod merge;
pub mod order;
pub mod sort;

// An entry of the table: the position of a slot, and the region that it points into.
#[derive(Clone, Copy)]
pub struct Pair {
    pub slot: u32,
    pub region: u32,
}
