// The requests of each operation, marked as pairs.
#![tactic(auto)]

pub mod cross;
pub mod diagonals;
pub mod operator;
pub mod requests;
