// The sums of a column of the recurrence in whole numbers where no product and no sum of products can exceed 2^53, so that none is tested: they are stored at
// the places of the column's entries. Of each sum the descendants up to its row are added first, a descendant at a time to all sums; then the greater ones, a
// sum at a time.
ghost use Rattle.std.specs.Prelude.{◌≡◌, ℕ, ◌+◌, ◌≤◌, ◌+ℤ◌, ◌*ℤ◌, length, set, true};
ghost use Rattle.pairs.specs.ColumnOrder.{column_marking, set_size};
ghost use Rattle.exact.specs.Multiple.{Small};
ghost use Rattle.whole_route.specs.ColumnSums.{sum_from, word_term, column_sums, with_whole_product, PartCleared, AddWholeAtInput, AddWholeRowsInput, RowsAdded, AddWholeStoredInput, StoredAdded, LowInput, LowAdded, HighTermInput, HighSumInput, AddHighInput, HighAdded, HighsInput, HighsAdded, WholeSumsInput, SumsDone, SizesWithin, SumsFit, MostFrom, Summed};
ghost use Rattle.whole_route.specs.Route.{RowsInput};

use kept_entries::diagonal::first_from;
use pair_places::positions::column_base;
use whole_steps::{is_nonzero, product, product_beyond, size, sum, whole_at};
use words::at;

// The sum s with the product of l and z.
fn plus_product(s: i64, l: i64, z: i64) -> i64
    requires { Small (l *ℤ z) × Small (s +ℤ l *ℤ z) }
    ensures { result ≡ s +ℤ l *ℤ z }
{
    sum(s, product(l, z))
}

// Sets the numbers from first to last to 0.
fn clear_part(first: usize, last: usize, work: &mut [i64])
    requires { (first ≤ last) × (last ≤ length work.old) }
    ensures { PartCleared first last work.old work.new }
{
    for q in first..last {
        work[q] = 0;
    }
}

// Adds to the number at a place the product of l and the number whose position is the word.
fn add_at(place: usize, word: usize, l: i64, scratch: &[u32], work: &mut [i64])
    requires { AddWholeAtInput place word l scratch.now work.old }
    ensures { work.new ≡ set work.old place (with_whole_product place word l scratch.now work.old) }
{
    let position = at(scratch, word);
    let total = plus_product(whole_at(work, place), l, whole_at(work, position));
    work[place] = total;
}

// Adds to each sum from the row at `from` on the product of l and the entry whose position is in the word `base` past its row.
#[inline(never)]
fn add_rows(
    base: usize,
    first: usize,
    from: usize,
    count: usize,
    l: i64,
    listed: &[u32],
    scratch: &[u32],
    work: &mut [i64],
)
    requires { AddWholeRowsInput base first from count l listed.now scratch.now work.old }
    ensures { RowsAdded base first from count l listed.now scratch.now work.old work.new }
{
    for q in from..count {
        add_at(first + q, base + at(listed, q), l, scratch, work);
    }
}

// Adds the product of the stored entry at p to each sum whose row is not less, all of which are from the row at q on; an entry that is not kept below the
// diagonal adds nothing. Returns a place in the list up to which the rows are less.
fn add_stored(
    n: usize,
    j: usize,
    first: usize,
    count: usize,
    p: usize,
    q: usize,
    listed: &[u32],
    rows: &[u32],
    values: &[i64],
    scratch: &[u32],
    work: &mut [i64],
) -> usize
    requires { AddWholeStoredInput (column_sums n j first count p (p + 1) listed.now rows.now values.now scratch.now) p q work.old }
    ensures { StoredAdded (column_sums n j first count p (p + 1) listed.now rows.now values.now scratch.now) p q result
        work.old work.new }
{
    let k = at(rows, p);
    if k <= j {
        return q;
    }
    let l = whole_at(values, p);
    if is_nonzero(l) {
        let from = first_from(k, listed, q, count);
        add_rows(
            column_base(n, k),
            first,
            from,
            count,
            l,
            listed,
            scratch,
            work,
        );
        return from;
    }
    q
}

// Adds to each sum of column j the products of the descendants up to its row.
fn add_lows(
    n: usize,
    j: usize,
    first: usize,
    count: usize,
    s: usize,
    e: usize,
    listed: &[u32],
    rows: &[u32],
    values: &[i64],
    scratch: &[u32],
    work: &mut [i64],
)
    requires { (b : ℕ) × LowInput (column_sums n j first count s e listed.now rows.now values.now scratch.now) b work.old }
    ensures { LowAdded (column_sums n j first count s e listed.now rows.now values.now scratch.now) e
        work.old work.new }
{
    let mut q = 0;
    for p in s..e {
        q = add_stored(
            n, j, first, count, p, q, listed, rows, values, scratch, work,
        );
    }
}

// The sum with the product of the value at p and the entry whose position is `base` words past its row; a value of 0 adds nothing.
fn add_high_term(
    base: usize,
    p: usize,
    total: i64,
    rows: &[u32],
    values: &[i64],
    scratch: &[u32],
    work: &[i64],
) -> i64
    requires { HighTermInput base p total rows.now values.now scratch.now work.now }
    ensures { result ≡ total +ℤ word_term base rows.now values.now scratch.now work.now p }
{
    if is_nonzero(whole_at(values, p)) {
        let position = at(scratch, base + at(rows, p));
        return plus_product(total, whole_at(values, p), whole_at(work, position));
    }
    total
}

// The sum of the products of the values from f to e and the entries whose positions are `base` words past the rows. Inlined, its
// loop and that of add_rows would lack registers.
#[inline(never)]
fn high_sum(
    base: usize,
    f: usize,
    e: usize,
    rows: &[u32],
    values: &[i64],
    scratch: &[u32],
    work: &[i64],
) -> i64
    requires { HighSumInput base f e rows.now values.now scratch.now work.now }
    ensures { result ≡ sum_from (word_term base rows.now values.now scratch.now work.now) f e }
{
    let mut total = 0;
    for p in f..e {
        total = add_high_term(base, p, total, rows, values, scratch, work);
    }
    total
}

// Adds to the sum of the row at q the products of the descendants greater than it, which are stored from f on. Returns where they start.
fn add_high(
    n: usize,
    j: usize,
    first: usize,
    count: usize,
    s: usize,
    e: usize,
    q: usize,
    f: usize,
    listed: &[u32],
    rows: &[u32],
    values: &[i64],
    scratch: &[u32],
    work: &mut [i64],
) -> usize
    requires { AddHighInput (column_sums n j first count s e listed.now rows.now values.now scratch.now) q f work.old }
    ensures { HighAdded (column_sums n j first count s e listed.now rows.now values.now scratch.now) q f result
        work.old work.new }
{
    let i = at(listed, q);
    if i <= j {
        return f;
    }
    let from = first_from(i + 1, rows, f, e);
    let more = high_sum(column_base(n, i), from, e, rows, values, scratch, work);
    let total = sum(whole_at(work, first + q), more);
    work[first + q] = total;
    from
}

// Adds to each sum of column j below the diagonal the products of the descendants greater than its row.
fn add_highs(
    n: usize,
    j: usize,
    first: usize,
    count: usize,
    s: usize,
    e: usize,
    listed: &[u32],
    rows: &[u32],
    values: &[i64],
    scratch: &[u32],
    work: &mut [i64],
)
    requires { (b : ℕ) × HighsInput (column_sums n j first count s e listed.now rows.now values.now scratch.now) b work.old }
    ensures { HighsAdded (column_sums n j first count s e listed.now rows.now values.now scratch.now) count
        work.old work.new }
{
    let mut f = s;
    for q in 0..count {
        f = add_high(
            n, j, first, count, s, e, q, f, listed, rows, values, scratch, work,
        );
    }
}

// Stores the sums of column j for its rows below the diagonal.
pub fn store_sums(
    n: usize,
    j: usize,
    first: usize,
    count: usize,
    s: usize,
    e: usize,
    listed: &[u32],
    rows: &[u32],
    values: &[i64],
    scratch: &[u32],
    work: &mut [i64],
)
    requires { (b : ℕ) × WholeSumsInput (column_sums n j first count s e listed.now rows.now values.now scratch.now) b work.old }
    ensures { SumsDone (column_sums n j first count s e listed.now rows.now values.now scratch.now)
        work.old work.new }
{
    clear_part(first, first + count, work);
    add_lows(
        n, j, first, count, s, e, listed, rows, values, scratch, work,
    );
    add_highs(
        n, j, first, count, s, e, listed, rows, values, scratch, work,
    );
}

// The greatest of a size and those of the numbers from s to e.
pub fn greatest_size(s: usize, e: usize, start: usize, wholes: &[i64]) -> usize
    requires { (s ≤ e) × (e ≤ length wholes.now) }
    ensures { SizesWithin s e start result wholes.now }
{
    let mut most = start;
    for p in s..e {
        most = most.max(size(whole_at(wholes, p)));
    }
    most
}

// Whether sums of the products of the values from s to e and as many numbers of at most a size cannot exceed 2^53.
fn sums_fit(s: usize, e: usize, most: usize, values: &[i64]) -> bool
    requires { (s ≤ e) × (e ≤ length values.now) }
    ensures { result ≡ true → SumsFit s e most values.now }
{
    let greatest = greatest_size(s, e, 0, values);
    if product_beyond(greatest, most) {
        return false;
    }
    if product_beyond(e - s, greatest * most) {
        return false;
    }
    true
}

// Stores the sums of column j for its rows below the diagonal if they cannot exceed 2^53, as all numbers behind the column are of at most a size; returns
// whether they are stored.
pub fn sum_column(
    n: usize,
    j: usize,
    first: usize,
    count: usize,
    s: usize,
    e: usize,
    most: usize,
    listed: &[u32],
    starts: &[u32],
    rows: &[u32],
    values: &[i64],
    scratch: &[u32],
    work: &mut [i64],
) -> bool
    requires rows_input { RowsInput n j first count s e listed.now starts.now rows.now values.now scratch.now work.old }
    requires most_from { MostFrom (first + count) most (set_size n (column_marking n scratch.now)) work.old }
    ensures { Summed (column_sums n j first count s e listed.now rows.now values.now scratch.now) result
        work.old work.new }
{
    if sums_fit(s, e, most, values) {
        store_sums(
            n, j, first, count, s, e, listed, rows, values, scratch, work,
        );
        return true;
    }
    false
}
