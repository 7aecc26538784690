// The library for C and Rust: every operation as a function with C's calling convention. A list is a pointer and a length.
// Each is the library's call, with its answer as numbers; include/redstartgilt.h has a paragraph on each.
#![tactic(auto)]

pub mod dependency_chains;
pub mod factors;
pub mod files;
pub mod floors;
pub mod ldl;
pub mod patterns;
pub mod permutations;
pub mod results;
pub mod row_covariances_with_limit;
pub mod selected_entries;
pub mod variances_with_limit;
pub mod whole_variances;
pub mod wholes;
