#![tactic(auto)]

// The lookup in a selected-inverse result and the diagonal list: what they refuse and reply. No code.
