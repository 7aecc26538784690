// Runs of words that are 0, passed over.
ghost use Rattle.std.specs.Prelude.{◌≡◌, ◌+◌, ◌≤◌, length};
ghost use Rattle.set_bits.specs.Zeros.{four_words, Zeros, ZerosSkipped};

// The bits of the four words from w on, all in one.
fn four_words(words: &[u32], w: usize) -> u32
    requires { w + 4 ≤ length words.now }
    ensures { result ≡ four_words words.now w }
{
    words[w] | words[w + 1] | words[w + 2] | words[w + 3]
}

// A word from `first` on, at most `end`, before which all are 0: four at a time.
fn skip_fours(words: &[u32], first: usize, end: usize) -> usize
    requires { (first ≤ end) × (end ≤ length words.now) }
    ensures { Zeros words.now first end result }
{
    let mut w = first;
    while w + 4 <= end {
        if four_words(words, w) != 0 {
            return w;
        }
        w += 4;
    }
    w
}

// The first word from `first` on, below `end`, that is not 0; `end` where there is none.
pub fn skip_zeros(words: &[u32], first: usize, end: usize) -> usize
    requires { (first ≤ end) × (end ≤ length words.now) }
    ensures { ZerosSkipped words.now first end result }
{
    let start = skip_fours(words, first, end);
    for w in start..end {
        if words[w] != 0 {
            return w;
        }
    }
    end
}
