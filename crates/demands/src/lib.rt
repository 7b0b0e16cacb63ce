// The demands as theorems, in specs/Demands.antt; there is no code.
#![tactic(auto)]
