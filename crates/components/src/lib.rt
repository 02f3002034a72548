// What an object's bytes stand for, its components, and the laws of both; no code.
#![tactic(auto)]
