// The theory of total orders, for elements of any kind: their laws, and what follows from them. It stands in specs/: there
// is nothing to run.
#![tactic(auto)]
