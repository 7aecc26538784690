// How many bits are set, by the ones of words.
ghost use Rattle.std.specs.Prelude.{◌≡◌, ◌*◌, ◌≤◌, ◌<◌, length};
ghost use Rattle.lists.specs.Select.{tally};
ghost use Rattle.bits.specs.Bits.{bit_at, bit_words};
ghost use Rattle.set_bits.specs.Counted.{max_bits, digit_test};

// How many of a word's bits from bit k on are set.
fn ones_from(w: u32, k: usize) -> usize
    requires { k < 32 }
    ensures { (result ≡ tally (digit_test w) k 32) × (result ≤ 32) }
{
    u32::count_ones(w >> k) as usize
}

// How many bits of the words from `first` to below `end` are set.
fn ones_between(words: &[u32], first: usize, end: usize) -> usize
    requires { (first ≤ end) × (end ≤ length words.now) × (end ≤ max_bits) }
    ensures { result ≡ tally (bit_at words.now) (first * 32) (end * 32) }
{
    let mut count = 0;
    for w in first..end {
        count += ones_from(words[w], 0);
    }
    count
}

// How many bits from p on to the end of its word are set; none where p begins a word.
fn rest_ones(words: &[u32], p: usize) -> usize
    requires { bit_words p ≤ length words.now }
    ensures { result ≡ tally (bit_at words.now) p (bit_words p * 32) }
{
    if p % 32 == 0 {
        return 0;
    }
    ones_from(words[p / 32], p % 32)
}

// How many bits from `place` to below `end` are set: those to the end of the last word less those behind `end`.
pub fn count_bits(words: &[u32], place: usize, end: usize) -> usize
    requires { (place ≤ end) × (end ≤ max_bits) × (bit_words end ≤ length words.now) }
    ensures { result ≡ tally (bit_at words.now) place end }
{
    let full = ones_between(words, (place + 31) / 32, (end + 31) / 32);
    rest_ones(words, place) + full - rest_ones(words, end)
}
