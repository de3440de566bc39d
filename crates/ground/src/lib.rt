// No code: definitions and laws that every other crate shares.
#![tactic(auto)]
