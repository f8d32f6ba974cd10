// The well-founded semantics with explicit negation (WFSX) and its pruned trees.
// Definitions stand in specs/, theorems in proofs/; there is no code.
#![tactic(auto)]
