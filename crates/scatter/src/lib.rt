#![tactic(auto)]

// The factor-pattern route over any arithmetic. No code.
