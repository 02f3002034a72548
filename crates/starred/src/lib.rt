// The scope's starred numbers: the table is in specs/, the theorem in proofs/, and there is no code.
#![tactic(auto)]
