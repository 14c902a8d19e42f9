// Demand 3, and the claim over the counters (02, W2), as theorems about what prepare, run and the report promise; they stand in specs/.
#![tactic(auto)]
