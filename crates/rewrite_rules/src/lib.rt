// No code: the rules of the rewriting, and what the table that they give means.
#![tactic(auto)]
