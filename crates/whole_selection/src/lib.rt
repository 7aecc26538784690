#![tactic(auto)]

// Selected entries in whole numbers: refusals, answer and lists; what reads back, and that f64 gives the same numbers. No code.
