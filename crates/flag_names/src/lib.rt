// Which flags an instruction names (02, request 07): theorems in specs/; there is no code.
#![tactic(auto)]
