// One account of an end: what each stage leaves, from whole words with marked survivors to the words after the end. Definitions and laws only.
#![tactic(auto)]
