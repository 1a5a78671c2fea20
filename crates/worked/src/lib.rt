// Worked examples on whole messages. No code.
#![tactic(auto)]
