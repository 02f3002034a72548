// What is known of a backup after steps and stores: the theorems are in proofs/, and there is no code.
#![tactic(auto)]
