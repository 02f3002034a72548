// What is known of a page after a repair: the theorems are in proofs/, and there is no code.
#![tactic(auto)]
