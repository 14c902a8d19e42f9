// What an accepted end of an epoch leaves, and that it is what the rules leave; it stands in specs/.
#![tactic(auto)]
