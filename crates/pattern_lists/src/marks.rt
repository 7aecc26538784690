// Marks of pairs, one bit for each, row by row: a pair is marked, and the marked pairs are counted, and listed ascending by row then column.
ghost use Rattle.std.specs.Prelude.{◌≡◌, ◌+◌, ◌-◌, ◌*◌, ◌/◌, ◌≤◌, min, length};
ghost use Rattle.lists.specs.Tabulate.{tabulate};
ghost use Rattle.lists.specs.Select.{tally};
ghost use Rattle.lists.specs.Overwrite.{splice};
ghost use Rattle.bits.specs.Bits.{bit_at};
ghost use Rattle.refusal.specs.Bounds.{max_dimension};
ghost use Rattle.pairs.specs.Pair.{max_pairs};
ghost use Rattle.pairs.specs.Marks.{Added, MarkPairInput, single};
ghost use Rattle.set_bits.specs.Zeros.{Zeros};
ghost use Rattle.pattern_lists.specs.Listing.{CountInput, ListRowInput, RowReached, RowListed, ListPairsInput, PairsListed};

use pair_places::row_place;
use set_bits::count::count_bits;
use set_bits::list_bits;
use set_bits::zero_words::skip_zeros;
use words::bit_words::set_bit;

// Marks the pair (r, c).
pub fn mark_pair(r: usize, c: usize, marks: &mut [u32])
    requires { MarkPairInput r c marks.old }
    ensures { Added (single r c) marks.old marks.new }
{
    set_bit(marks, row_place(r, c));
}

// How many bits below `end` of the eight words from w on are set.
fn count_eight(marks: &[u32], w: usize, end: usize) -> usize
    requires { CountInput end marks.now × (w ≤ length marks.now) }
    ensures { result ≡ tally (bit_at marks.now) (min end (w * 32)) (min end (w * 32 + 256)) }
{
    let place = w * 32;
    if end <= place {
        return 0;
    }
    count_bits(marks, place, end.min(place + 256))
}

// How many bits below `end` are set; runs of words that are 0 are passed over.
pub fn count_marks(marks: &[u32], end: usize) -> usize
    requires { CountInput end marks.now }
    ensures { result ≡ tally (bit_at marks.now) 0 end }
{
    let mut count = 0;
    let mut w = 0;
    while w < marks.len() {
        w = skip_zeros(marks, w, marks.len());
        count += count_eight(marks, w, end);
        w += 8;
    }
    count
}

// Writes r at the places from s to below e.
fn repeat_row(r: usize, s: usize, e: usize, rows: &mut [u32])
    requires { (r ≤ max_dimension) × (s ≤ e) × (e ≤ length rows.old) }
    ensures { rows.new ≡ splice s (tabulate (λ _. r) (e - s)) rows.old }
{
    rows[s..e].fill(r as u32);
}

// A word, not before that of `place`, up to which the words from there on are 0: w as before where it is such a word.
fn marked_word(place: usize, w: usize, marks: &[u32]) -> usize
    requires place_in_bounds { place / 32 ≤ length marks.now }
    requires zeros { Zeros marks.now (min (place / 32) w) (length marks.now) w }
    ensures { Zeros marks.now (place / 32) (length marks.now) result }
{
    if place / 32 <= w {
        return w;
    }
    skip_zeros(marks, place / 32, marks.len())
}

// How many bits from `place` on stand before the word w.
fn bits_before(place: usize, w: usize) -> usize
    requires { w ≤ max_pairs }
    ensures { result ≡ w * 32 - place }
{
    if w * 32 <= place {
        return 0;
    }
    w * 32 - place
}

// Lists the marked pairs of row r, whose bits start at `place`, behind `first` pairs; returns how many are listed. From there on the words are 0 up to the word w: a row that ends before it has no mark.
fn list_row(
    r: usize,
    place: usize,
    w: usize,
    first: usize,
    marks: &[u32],
    rows: &mut [u32],
    columns: &mut [u32],
) -> usize
    requires list_row_input { ListRowInput marks.now r first rows.old columns.old }
    requires row_reached { RowReached marks.now r place w }
    ensures { RowListed marks.now r first rows.old columns.old rows.new columns.new result }
{
    let low = bits_before(place, w);
    if r < low {
        return first;
    }
    let count = list_bits(r + 1, place + low, low, first, columns, marks);
    repeat_row(r, first, count, rows);
    count
}

// Lists the marked pairs of n columns ascending by row then column; returns how many there are.
pub fn list_pairs(n: usize, marks: &[u32], rows: &mut [u32], columns: &mut [u32]) -> usize
    requires { ListPairsInput marks.now n rows.old columns.old }
    ensures { PairsListed marks.now n rows.old columns.old rows.new columns.new result }
{
    let mut count = 0;
    let mut place = 0;
    let mut w = 0;
    for r in 0..n {
        w = marked_word(place, w, marks);
        count = list_row(r, place, w, count, marks, rows, columns);
        place += r + 1;
    }
    count
}
