// Marking, the first stage of the end of an epoch: every object of the ending region that a holder leads to gets its bit in the working
// word of its page, and the region that it goes to in its word 1. And its undoing, for an end that is refused.
#![tactic(auto)]

pub mod drain;
pub mod holders;
pub mod levels;
pub mod push;
pub mod survivors;
pub mod unmark;
