// The words that closing uses: marks of pairs, one bit for each, column by column, and behind them a queue of the marked pairs, after `insert_closure_pair` of uncertainty.rs.
#![tactic(auto)]

ghost use Rattle.std.specs.Prelude.{false, ◌+◌, ◌≤◌, length};
ghost use Rattle.refusal.specs.Bounds.{max_dimension};
ghost use Rattle.pairs.specs.Pair.{pair_total};
ghost use Rattle.pairs.specs.Scratch.{queue_start};
ghost use Rattle.marked_pairs.specs.MarkedPairs.{InsertInput, Inserted, MarkedPairs};

use pair_places::scratch::{mark_words, queue_start};
use pair_places::{PACKING, column_place};
use words::bit_words::{bit, set_bit};
use words::clear;

// Marks no pair: clears the words of all pairs' bits.
pub fn clear_pairs(n: usize, scratch: &mut [u32])
    requires { (n ≤ max_dimension) × (queue_start n + pair_total n ≤ length scratch.old) }
    ensures { MarkedPairs n (λ _ _. false) scratch.old scratch.new 0 }
{
    clear(scratch, mark_words(n));
}

// Marks the pair (r, c), in order, and puts it at the queue's end, unless it is marked; returns how many are marked.
fn insert_ordered_pair(n: usize, r: usize, c: usize, count: usize, scratch: &mut [u32]) -> usize
    requires { (c ≤ r) × InsertInput n r c scratch.old count }
    ensures { Inserted n r c scratch.old count scratch.new result }
{
    let p = column_place(n, r, c);
    if bit(scratch, p) {
        return count;
    }
    set_bit(scratch, p);
    let end = queue_start(n) + count;
    let w = r * PACKING + c;
    scratch[end] = w as u32;
    count + 1
}

// The same for a pair in either order.
pub fn insert_closure_pair(n: usize, a: usize, b: usize, count: usize, scratch: &mut [u32]) -> usize
    requires { InsertInput n a b scratch.old count }
    ensures { Inserted n a b scratch.old count scratch.new result }
{
    if a < b {
        return insert_ordered_pair(n, b, a, count, scratch);
    }
    insert_ordered_pair(n, a, b, count, scratch)
}
