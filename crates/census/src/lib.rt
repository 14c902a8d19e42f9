// The census of a marked region, the second stage of an end: how many survivors there are, how many go to each region, and how many slots
// would cross afterwards. The tables are only read.
#![tactic(auto)]

pub mod count;
pub mod crossing;
pub mod survivors;
