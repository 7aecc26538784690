#![tactic(auto)]

// The exact case of selected entries, from a call to its lookup. No code.
