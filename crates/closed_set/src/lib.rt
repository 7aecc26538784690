#![tactic(auto)]

// The closed set of pairs, and its size. No code.
