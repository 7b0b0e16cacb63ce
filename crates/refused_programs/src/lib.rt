// Refused programs whose runs break what demand 3 promises, so that the promise says something. Theorems in specs/; there is no code.
#![tactic(auto)]
