// The chains of the remember table by region (02, W6) follow each change of the table: an entry comes, goes or gets another region. The words are
// renumbered in one pass where an entry comes or goes, and it is found in a chain by a walk along that chain alone.
#![tactic(auto)]

pub mod entries;
pub mod joins;
pub mod moves;
