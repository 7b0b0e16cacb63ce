// Demand 3: an accepted program is safe on every run. Statement, invariant and theorem are in specs/; there is no code.
#![tactic(auto)]
