#![tactic(auto)]

// No code: bits of a list of words, defined in specs/.
