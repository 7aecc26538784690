// The limit of a case.
use case_text::{begins, decimal, skip_to};

// None where it is the default.
pub fn limit_of(text: &[u8]) -> Option<usize> {
    let p = skip_to(text, 0, b"\nlimit ");
    if begins(text, p, b"default") {
        return None;
    }
    Some(decimal(text, p) as usize)
}
