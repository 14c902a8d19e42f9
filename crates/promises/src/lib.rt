// What the code promises of the lent words; the promises stand in specs/.
#![tactic(auto)]
