#![tactic(auto)]

// The entries of a selected inverse as lists. No code.
