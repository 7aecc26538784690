// Lists of 32-bit words: a word as an index, and clearing.
#![tactic(auto)]

pub mod bit_words;
pub mod index;
pub mod order;

ghost use Rattle.std.specs.Prelude.{◌≡◌, ◌<◌, ◌≤◌, length, get_or};
ghost use Rattle.lists.specs.Overwrite.{cleared};

fn wide(x: u32) -> usize
    ensures { result ≡ x }
{
    x as usize
}

// The word at p, as an index.
pub fn at(words: &[u32], p: usize) -> usize
    requires { p < length words.now }
    ensures { result ≡ get_or words.now p 0 }
{
    wide(words[p])
}

// Sets the first m words to 0.
pub fn clear(words: &mut [u32], m: usize)
    requires { m ≤ length words.old }
    ensures { words.new ≡ cleared m words.old }
{
    words[..m].fill(0);
}
