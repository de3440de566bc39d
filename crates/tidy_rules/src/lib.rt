// No code: the rows of a rota in order, each once, and that they mean what the rows meant.
#![tactic(auto)]
