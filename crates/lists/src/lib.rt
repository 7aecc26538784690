#![tactic(auto)]

// Laws of lists, tests over ranges and sums that the other theories cite. No code.
