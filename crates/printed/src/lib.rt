// What the program prints for every input (01, "The program"; 02, W2), by the rules alone; it stands in specs/.
#![tactic(auto)]
