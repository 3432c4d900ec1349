// Theorem: for every sound block the second engine gives what a reader gives.
#![tactic(auto)]
