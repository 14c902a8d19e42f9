// Sliding, the collection of the control space: the kept cells, those marked on the listed pages, go in their order to the first places of
// these pages, and what they leave is given back.
#![tactic(auto)]

pub mod number;
pub mod slide;
pub mod trim;
