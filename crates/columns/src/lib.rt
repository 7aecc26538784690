#![tactic(auto)]

// Factors in compressed columns and sparse operators: what is refused of them, and what is kept. No code.
