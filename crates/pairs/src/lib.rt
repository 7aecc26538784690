#![tactic(auto)]

// Pairs of the lower triangle. No code.
