// The lists that a case lends for writing: what stands in it is put to the front of the caller's list, and the reply is that front; where the case gives none, the whole list as it is.
use case_text::items::{Bytes, Form, HexBytes, Values, Wholes, Words, read_list};
use case_text::skip_to;

// The list after the label.
pub fn lent_list<'a, F: Form>(
    text: &[u8],
    label: &[u8],
    list: &'a mut [F::Item],
) -> &'a mut [F::Item] {
    let p = skip_to(text, 0, label);
    if p < text.len() {
        let count = read_list::<F>(text, p, list);
        return &mut list[..count];
    }
    list
}

// The lists of a result.
pub fn lent_starts<'a>(text: &[u8], list: &'a mut [u32]) -> &'a mut [u32] {
    lent_list::<Words>(text, b"\nlstarts ", list)
}

pub fn lent_rows<'a>(text: &[u8], list: &'a mut [u32]) -> &'a mut [u32] {
    lent_list::<Words>(text, b"\nlrows ", list)
}

pub fn lent_result_values<'a>(text: &[u8], list: &'a mut [f64]) -> &'a mut [f64] {
    lent_list::<Values>(text, b"\nlvalues ", list)
}

pub fn lent_whole_values<'a>(text: &[u8], list: &'a mut [i64]) -> &'a mut [i64] {
    lent_list::<Wholes>(text, b"\nlwvalues ", list)
}

pub fn lent_scratch<'a>(text: &[u8], list: &'a mut [u32]) -> &'a mut [u32] {
    lent_list::<Words>(text, b"\nlscratch ", list)
}

pub fn lent_work<'a>(text: &[u8], list: &'a mut [i64]) -> &'a mut [i64] {
    lent_list::<Wholes>(text, b"\nlwork ", list)
}

pub fn lent_output<'a>(text: &[u8], list: &'a mut [f64]) -> &'a mut [f64] {
    lent_list::<Values>(text, b"\nlout ", list)
}

pub fn lent_whole_output<'a>(text: &[u8], list: &'a mut [i64]) -> &'a mut [i64] {
    lent_list::<Wholes>(text, b"\nlwout ", list)
}

pub fn lent_marks<'a>(text: &[u8], list: &'a mut [u8]) -> &'a mut [u8] {
    lent_list::<Bytes>(text, b"\nlmarks ", list)
}

pub fn lent_file<'a>(text: &[u8], list: &'a mut [u8]) -> &'a mut [u8] {
    lent_list::<HexBytes>(text, b"\nlfile ", list)
}
