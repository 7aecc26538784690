// The numbers that one word's bits say.
ghost use Rattle.std.specs.Prelude.{◌≡◌, ◌+◌, ◌/◌, ◌%◌, ◌^◌, ◌≤◌, ◌<◌, min, length, get_or};
ghost use Rattle.bits.specs.Bits.{Lowest};
ghost use Rattle.refusal.specs.Bounds.{max_dimension};
ghost use Rattle.set_bits.specs.Listed.{NumbersListed};
ghost use Rattle.set_bits.specs.WordNumbers.{ListWordInput, word_test};

// The bits from p on in its word, lowest first.
pub fn word_from(words: &[u32], p: usize) -> u32
    requires { p / 32 < length words.now }
    ensures { result ≡ get_or words.now (p / 32) 0 / 2 ^ (p % 32) }
{
    let w = words[p / 32];
    w >> (p % 32)
}

// The end of the k numbers from r on, those past `high` left out.
pub fn numbers_end(high: usize, r: usize, k: usize) -> usize
    requires { (high ≤ max_dimension) × (r ≤ high) × (k ≤ 32) }
    ensures { result ≡ min high (r + k) }
{
    let e = r + k;
    if e < high {
        return e;
    }
    high
}

// The place of the lowest bit that is set.
fn lowest_bit(w: u32) -> usize
    requires { 0 < w }
    ensures { Lowest 32 w result }
{
    u32::trailing_zeros(w) as usize
}

// Lists the numbers from `low` to below `end` that the word's bits say behind `first` numbers; returns how many are listed.
pub fn list_word(word: u32, low: usize, end: usize, first: usize, list: &mut [u32]) -> usize
    requires { ListWordInput word low end first list.old }
    ensures { NumbersListed (word_test word low) low end first list.old list.new result }
{
    let mut count = first;
    let mut w = word;
    let mut r = low;
    while w != 0 {
        let z = lowest_bit(w);
        r += z;
        if r >= end {
            return count;
        }
        list[count] = r as u32;
        count += 1;
        w = (w >> z) / 2;
        r += 1;
    }
    count
}
