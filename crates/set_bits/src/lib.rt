// Numbers whose bits are set in a list of words: how many they are, and the numbers themselves.
#![tactic(auto)]

pub mod count;
pub mod word_numbers;
pub mod zero_words;

ghost use Rattle.std.specs.Prelude.{◌*◌};
ghost use Rattle.set_bits.specs.Listed.{NumbersListed};
ghost use Rattle.set_bits.specs.BitsListed.{bits_test, ListWordsInput, ListBitsInput};

use word_numbers::{list_word, numbers_end, word_from};
use zero_words::skip_zeros;

// Lists the numbers from `low` to below `high` whose bits are set, that of `low` being the lowest of the word `word`, behind `first` numbers; returns how many are listed.
fn list_words(
    high: usize,
    word: usize,
    low: usize,
    first: usize,
    list: &mut [u32],
    words: &[u32],
) -> usize
    requires { ListWordsInput high word low first list.old words.now }
    ensures { NumbersListed (bits_test words.now (word * 32) low) low high first list.old list.new result }
{
    let end = word + (high - low + 31) / 32;
    let mut count = first;
    let mut w = word;
    while w < end {
        w = skip_zeros(words, w, end);
        if w >= end {
            return count;
        }
        let r = low + (w - word) * 32;
        count = list_word(words[w], r, numbers_end(high, r, 32), count, list);
        w += 1;
    }
    count
}

// Lists the numbers from `low` to below `high` whose bits are set, that of `low` being bit `place`, behind `first` numbers; returns how many are listed.
pub fn list_bits(
    high: usize,
    place: usize,
    low: usize,
    first: usize,
    list: &mut [u32],
    words: &[u32],
) -> usize
    requires { ListBitsInput high place low first list.old words.now }
    ensures { NumbersListed (bits_test words.now place low) low high first list.old list.new result }
{
    let end = numbers_end(high, low, 32 - place % 32);
    let count = list_word(word_from(words, place), low, end, first, list);
    list_words(high, place / 32 + 1, end, count, list, words)
}
