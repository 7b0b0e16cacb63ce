// Logger cases (a) to (l) of 01: one list, one theorem over it, in specs/Cases.antt. There is no code.
#![tactic(auto)]
