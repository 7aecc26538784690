// The lists of a case under their names. Those that the case gives are put into a list of the caller's, and the reply is its front; items past its room are dropped.
// Fields of one meaning have names that differ in the first letter, `of`: r of the requests, p of the pairs looked up, o of the operator, a and b of two operators.
#![tactic(auto)]

pub mod lent;
pub mod limits;

use case_text::fields::{list_field, number_field};
use case_text::items::{Form, Values, Wholes, Words};

// The places of each list that a case is read into.
pub const ROOM: usize = 4608;

// The list after the label.
pub fn list_of<'a, F: Form>(text: &[u8], label: &[u8], list: &'a mut [F::Item]) -> &'a [F::Item] {
    let count = list_field::<F>(text, label, list);
    &list[..count]
}

// A factor: its dimension and its lists; a result has the same lists. Its values may be whole numbers, and it may have pivots.
pub fn dimension(text: &[u8]) -> usize {
    number_field(text, b"\nn ")
}

pub fn starts<'a>(text: &[u8], list: &'a mut [u32]) -> &'a [u32] {
    list_of::<Words>(text, b"\nstarts ", list)
}

pub fn rows<'a>(text: &[u8], list: &'a mut [u32]) -> &'a [u32] {
    list_of::<Words>(text, b"\nrows ", list)
}

pub fn values<'a>(text: &[u8], list: &'a mut [f64]) -> &'a [f64] {
    list_of::<Values>(text, b"\nvalues ", list)
}

pub fn whole_values<'a>(text: &[u8], list: &'a mut [i64]) -> &'a [i64] {
    list_of::<Wholes>(text, b"\nwvalues ", list)
}

pub fn pivots<'a>(text: &[u8], list: &'a mut [f64]) -> &'a [f64] {
    list_of::<Values>(text, b"\npivots ", list)
}

// Requests, pairs looked up, or the rows of row pairs.
pub fn request_dimension(text: &[u8]) -> usize {
    number_field(text, b"\nrdim ")
}

pub fn rows_of<'a>(text: &[u8], of: u8, list: &'a mut [u32]) -> &'a [u32] {
    let label = [b'\n', of, b'r', b'o', b'w', b's', b' '];
    list_of::<Words>(text, &label, list)
}

// Columns of requests, of pairs looked up, or of an operator.
pub fn columns_of<'a>(text: &[u8], of: u8, list: &'a mut [u32]) -> &'a [u32] {
    let label = [b'\n', of, b'c', b'o', b'l', b's', b' '];
    list_of::<Words>(text, &label, list)
}

// The dimension of the operator o, and the other lists of an operator.
pub fn operator_dimension(text: &[u8]) -> usize {
    number_field(text, b"\nncols ")
}

pub fn row_starts_of<'a>(text: &[u8], of: u8, list: &'a mut [u32]) -> &'a [u32] {
    let label = [b'\n', of, b's', b't', b'a', b'r', b't', b's', b' '];
    list_of::<Words>(text, &label, list)
}

pub fn weights_of<'a>(text: &[u8], of: u8, list: &'a mut [f64]) -> &'a [f64] {
    let label = [b'\n', of, b'w', b'e', b'i', b'g', b'h', b't', b's', b' '];
    list_of::<Values>(text, &label, list)
}

// The permutation, and values to be read.
pub fn permutation<'a>(text: &[u8], list: &'a mut [u32]) -> &'a [u32] {
    list_of::<Words>(text, b"\nperm ", list)
}

pub fn input<'a>(text: &[u8], list: &'a mut [f64]) -> &'a [f64] {
    list_of::<Values>(text, b"\ninput ", list)
}

// One operator row: its columns, and the least and the greatest weight at each.
pub fn columns<'a>(text: &[u8], list: &'a mut [u32]) -> &'a [u32] {
    list_of::<Words>(text, b"\ncols ", list)
}

pub fn lows<'a>(text: &[u8], list: &'a mut [i64]) -> &'a [i64] {
    list_of::<Wholes>(text, b"\nlows ", list)
}

pub fn highs<'a>(text: &[u8], list: &'a mut [i64]) -> &'a [i64] {
    list_of::<Wholes>(text, b"\nhighs ", list)
}

// A track: its cells, and how many of them a run has.
pub fn cells<'a>(text: &[u8], list: &'a mut [u32]) -> &'a [u32] {
    list_of::<Words>(text, b"\ncells ", list)
}

pub fn width(text: &[u8]) -> usize {
    number_field(text, b"\nwidth ")
}
