#![tactic(auto)]

// Document 01's starred cases: what each says, as one table. No code.
