// Runs document 01's starred cases: each module calls and compares.
#![tactic(auto)]

mod calls;
mod closed_sets;
mod floors;
mod operator_row;
mod permutations;
mod shown;
mod values;

use closed_sets::{
    closed_set_of_no_columns, closed_sets_of_f3, limits, pairs_of_f2, requests_of_f2,
};
use floors::floored;
use permutations::{inverse, repeated};
use values::{values_of_f2, values_of_one_column};

fn main() {
    inverse();
    repeated();
    pairs_of_f2();
    requests_of_f2();
    closed_sets_of_f3();
    closed_set_of_no_columns();
    limits();
    floored();
    operator_row::operator_row();
    values_of_f2();
    values_of_one_column();
}
