#![tactic(auto)]

// What selected entries asks, refuses, answers and leaves. No code.
