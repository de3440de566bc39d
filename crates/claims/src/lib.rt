// No code: what is claimed over several floors, and why it holds: demand 3, whole, and what the requests ask beside the contracts.
#![tactic(auto)]
