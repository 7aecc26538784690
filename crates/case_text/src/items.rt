// Reading lists from the text of cases into lists that the caller lends; items past the lent list's room are dropped.
ghost use Rattle.std.specs.Prelude.{◌≡◌, ◌≤◌, ℕ, List, length};
ghost use Rattle.lists.specs.Overwrite.{filled};
ghost use Rattle.case_text.specs.Items.{placed, word_here, byte_here, float_here, whole_here, Listing};

use super::{decimal, float_value, hexadecimal, skip_blanks, skip_word, whole_number};
use std::cmp::min;

// How the items of a list are written.
pub trait Form {
    type Item: Copy;

    // The item that starts at a place.
    ghost here: { List ℕ → ℕ → Self.Item };

    fn read(text: &[u8], p: usize) -> Self::Item
        ensures { result ≡ here text.now p };
}

// Decimal words, of which one above 2^32 - 1 is read as that.
pub struct Words;

impl Form for Words {
    type Item = u32;

    ghost here = { word_here };

    fn read(text: &[u8], p: usize) -> u32 {
        u32::try_from(decimal(text, p)).unwrap_or(u32::MAX)
    }
}

// Decimal bytes, of which one above 255 is read as that.
pub struct Bytes;

impl Form for Bytes {
    type Item = u8;

    ghost here = { byte_here 10 };

    fn read(text: &[u8], p: usize) -> u8 {
        u8::try_from(decimal(text, p)).unwrap_or(u8::MAX)
    }
}

// The same in hexadecimal digits.
pub struct HexBytes;

impl Form for HexBytes {
    type Item = u8;

    ghost here = { byte_here 16 };

    fn read(text: &[u8], p: usize) -> u8 {
        u8::try_from(hexadecimal(text, p)).unwrap_or(u8::MAX)
    }
}

// Values, each by its bits in hexadecimal digits.
pub struct Values;

impl Form for Values {
    type Item = f64;

    ghost here = { float_here };

    fn read(text: &[u8], p: usize) -> f64 {
        float_value(text, p)
    }
}

// Decimal whole numbers.
pub struct Wholes;

impl Form for Wholes {
    type Item = i64;

    ghost here = { whole_here };

    fn read(text: &[u8], p: usize) -> i64 {
        whole_number(text, p)
    }
}

// Puts the first `count` items after p to the front of the list.
fn put_items<F: Form>(text: &[u8], p: usize, count: usize, list: &mut [F::Item])
    requires { count ≤ length list.old }
    ensures { list.new ≡ filled (placed F.here text.now p) count list.old }
{
    let mut q = p;
    for i in 0..count {
        q = skip_blanks(text, q);
        let item = F::read(text, q);
        list[i] = item;
        q = skip_word(text, q);
    }
}

// Reads a counted list; the reply is how many items are put to the front of the lent list.
pub fn read_list<F: Form>(text: &[u8], p: usize, list: &mut [F::Item]) -> usize
    ensures { Listing (placed F.here) text.now p list.old result list.new }
{
    let at = skip_blanks(text, p);
    let items = decimal(text, at) as usize;
    let count = min(items, list.len());
    put_items::<F>(text, skip_word(text, at), count, list);
    count
}
