// The maintainer's demands as theorems over the definitions that the calls promise. No code.
#![tactic(auto)]
