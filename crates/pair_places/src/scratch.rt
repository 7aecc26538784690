// The words of scratch that a call uses.
ghost use Rattle.std.specs.Prelude.{◌≡◌, ◌≤◌, length};
ghost use Rattle.lists.specs.Overwrite.{cleared};
ghost use Rattle.refusal.specs.Bounds.{max_dimension};
ghost use Rattle.pairs.specs.Pair.{max_pairs};
ghost use Rattle.pairs.specs.Scratch.{mark_words, queue_start, scratch_words, chain_words};

use super::pair_total;
use words::clear;

// How many words hold the marks, one bit for each pair.
pub fn mark_words(n: usize) -> usize
    requires { n ≤ max_dimension }
    ensures { (result ≡ mark_words n) × (result ≤ max_pairs) }
{
    (pair_total(n) + 31) / 32
}

// The word where the queue, and later the positions, start.
pub fn queue_start(n: usize) -> usize
    requires { n ≤ max_dimension }
    ensures { (result ≡ queue_start n) × (result ≤ max_pairs) }
{
    mark_words(n)
}

// How many words a call uses.
pub fn scratch_words(n: usize) -> usize
    requires { n ≤ max_dimension }
    ensures { result ≡ scratch_words n }
{
    mark_words(n) + pair_total(n) + 4 * n
}

// How many words a chain uses.
pub fn chain_words(n: usize) -> usize
    requires { n ≤ max_dimension }
    ensures { result ≡ chain_words n }
{
    2 * pair_total(n) + 4 * n
}

// Sets the words that a call uses to 0.
pub fn clear_scratch(n: usize, scratch: &mut [u32])
    requires { (n ≤ max_dimension) × (scratch_words n ≤ length scratch.old) }
    ensures { scratch.new ≡ cleared (scratch_words n) scratch.old }
{
    clear(scratch, scratch_words(n));
}
