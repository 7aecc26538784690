// Reading the text of cases: what stands at a place, and the place after it.
#![tactic(auto)]

pub mod fields;
pub mod items;

ghost use Rattle.std.specs.Prelude.{◌≡◌, ◌+◌, ◌<◌};
ghost use Rattle.std.specs.Float.{binary64};
ghost use Rattle.std.specs.Float.Ieee.{of_bits};
ghost use Rattle.case_text.specs.Text.{past_blanks, past_word, digit_of, digit_more, number_at, past_first, whole_number_at, not_below, negated as Text·negated, begins as Text·begins};

use std::cmp::max;

// The first place from p on that holds no blank and no line end.
pub fn skip_blanks(text: &[u8], p: usize) -> usize
    ensures { result ≡ past_blanks text.now p }
{
    for i in p..text.len() {
        if text[i] > 32 {
            return i;
        }
    }
    max(p, text.len())
}

// The first place from p on that holds a blank or a line end.
pub fn skip_word(text: &[u8], p: usize) -> usize
    ensures { result ≡ past_word text.now p }
{
    for i in p..text.len() {
        if text[i] <= 32 {
            return i;
        }
    }
    max(p, text.len())
}

// The digit that a byte is, 16 where it is none.
#[tactic(auto, unfolding(crate::specs::Text::digit_of))]
fn digit(b: u8) -> u64
    ensures { result ≡ digit_of b }
{
    match b {
        b'0'..=b'9' => u64::from(b - b'0'),
        b'a'..=b'f' => u64::from(b - b'a' + 10),
        _ => 16,
    }
}

// One more digit d after x, where the number stays below 2^64.
fn digit_more(base: u64, x: u64, d: u64) -> u64
    ensures { result ≡ digit_more base x d }
{
    match x.checked_mul(base) {
        Some(y) => y.checked_add(d).unwrap_or(x),
        None => x,
    }
}

// The number in the base whose digits start at p.
fn number_in_base(text: &[u8], p: usize, base: u64) -> u64
    ensures { result ≡ number_at base text.now p }
{
    let mut value = 0;
    for i in p..text.len() {
        let d = digit(text[i]);
        if d >= base {
            return value;
        }
        value = digit_more(base, value, d);
    }
    value
}

// The decimal number at p.
pub fn decimal(text: &[u8], p: usize) -> u64
    ensures { result ≡ number_at 10 text.now p }
{
    number_in_base(text, p, 10)
}

// The value that the bits are; any NaN's bits give a NaN.
fn of_bits(bits: u64) -> f64
    ensures { result ≡ of_bits binary64 bits }
{
    if bits % 9223372036854775808 > 9218868437227405312 {
        return 0.0 / 0.0;
    }
    f64::from_bits(bits)
}

// The hexadecimal number at p.
pub fn hexadecimal(text: &[u8], p: usize) -> u64
    ensures { result ≡ number_at 16 text.now p }
{
    number_in_base(text, p, 16)
}

// The value whose bits are the hexadecimal number at p.
pub fn float_value(text: &[u8], p: usize) -> f64
    ensures { result ≡ of_bits binary64 (number_at 16 text.now p) }
{
    of_bits(hexadecimal(text, p))
}

// Whether the bytes of the label stand from p on.
pub fn begins(text: &[u8], p: usize, label: &[u8]) -> bool
    ensures { result ≡ Text·begins text.now p label.now }
{
    if text.len() < label.len() {
        return false;
    }
    if text.len() - label.len() < p {
        return false;
    }
    // At most places that `skip_to` asks about the first byte differs, and `starts_with` takes several times as long to tell.
    for i in 0..label.len() {
        if text[p + i] != label[i] {
            return false;
        }
    }
    true
}

// The place after the label, where it stands first from p on; else the text's end.
pub fn skip_to(text: &[u8], p: usize, label: &[u8]) -> usize
    ensures { result ≡ past_first text.now p label.now }
{
    for i in p..text.len() {
        if begins(text, i, label) {
            return i + label.len();
        }
    }
    max(p, text.len())
}

// x; the largest signed number where x is above it.
fn not_below(x: u64) -> i64
    ensures { result ≡ not_below x }
{
    i64::try_from(x).unwrap_or(i64::MAX)
}

// -x; the least signed number, which has no negative, where x is its size or above.
fn negated(x: u64) -> i64
    ensures { result ≡ Text·negated x }
{
    match i64::try_from(x) {
        Ok(y) => -y,
        Err(_) => i64::MIN,
    }
}

// The whole number at p.
pub fn whole_number(text: &[u8], p: usize) -> i64
    ensures { result ≡ whole_number_at text.now p }
{
    if begins(text, p, b"-") {
        return negated(decimal(text, p + 1));
    }
    not_below(decimal(text, p))
}
