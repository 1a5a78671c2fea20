// Theorems over what is read in a message: a leaf's value is that of the tree, every place lies in the message, and what is answered fits. No code.
#![tactic(auto)]
