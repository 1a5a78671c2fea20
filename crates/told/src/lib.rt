// What a message says, on its tree, and that the one pass over it finds the same. No code.
#![tactic(auto)]
