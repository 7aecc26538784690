// Closing the queue's pairs under the dependencies of a factor, with marks and a queue in scratch, after the loops of
// `takahashi_dependency_closure` of uncertainty.rs.
ghost use Rattle.std.specs.Prelude.{◌≡◌, ◌<◌, ◌≤◌, length};
ghost use Rattle.closure.specs.Queue.{QueueInput, ColumnEndInput, EndOf, after_span, EndColumnInput, ColumnEnded, QueueClosed};

use super::stops::find_stop;
use kept_entries::stored::StoredValue;
use marked_pairs::insert_closure_pair;
use pair_places::PACKING;
use pair_places::scratch::queue_start;
use words::at;

// Where closing (r, c) ends among the entries of column c: at its stop, if the row there is at most r, else with the column.
fn column_end(r: usize, c: usize, stop: usize, starts: &[u32], rows: &[u32]) -> usize
    requires { ColumnEndInput c stop starts.now rows.now }
    ensures { EndOf starts.now rows.now stop r c result }
{
    let end = at(starts, c + 1);
    if stop < end {
        if at(rows, stop - 1) <= r {
            return stop;
        }
    }
    end
}

// Where the queue goes on: behind the pairs that closing column c's diagonal added, if they start at `head`; else there.
fn after_span(head: usize, c: usize, span_starts: &[u32], span_ends: &[u32]) -> usize
    requires { (c < length span_starts.now) × (c < length span_ends.now) }
    ensures { result ≡ after_span span_starts.now span_ends.now head c }
{
    if at(span_starts, c) == head {
        return at(span_ends, c);
    }
    head
}

// The end of closing (r, c), to which the queue's words from `before` on were added. Where it is a diagonal and the column has a stop before its end,
// at the descendant d, those words are noted and (d, d) is inserted: with it their dependencies follow, and their turn can be passed over.
fn end_column(
    n: usize,
    r: usize,
    c: usize,
    stop: usize,
    before: usize,
    count: usize,
    starts: &[u32],
    rows: &[u32],
    span_starts: &mut [u32],
    span_ends: &mut [u32],
    scratch: &mut [u32],
) -> usize
    requires { EndColumnInput n c stop before count starts.now rows.now span_starts.old span_ends.old scratch.old }
    ensures { ColumnEnded n r c stop before count starts.now rows.now span_starts.old span_ends.old scratch.old
        span_starts.new span_ends.new scratch.new result }
{
    if r != c {
        return count;
    }
    if at(starts, c + 1) <= stop {
        return count;
    }
    span_starts[c] = before as u32;
    span_ends[c] = count as u32;
    let d = at(rows, stop - 1);
    insert_closure_pair(n, d, d, count, scratch)
}

// Takes each pair of the queue and inserts its dependencies, up to the first pair past the limit. Entries not kept, and diagonals, are passed over.
// At a column's stop the rest are dependencies of the pair inserted last, and follow when its turn comes. Pairs that a diagonal added are passed over
// where its column has a stop before its end. Inlined, it would take registers from the sums of a filling's loops.
#[inline(never)]
pub fn close_queue<T: StoredValue>(
    n: usize,
    starts: &[u32],
    rows: &[u32],
    values: &[T],
    limit: usize,
    first: usize,
    stops: &mut [u32],
    span_starts: &mut [u32],
    span_ends: &mut [u32],
    scratch: &mut [u32],
) -> usize
    requires queue_input { QueueInput n starts.now rows.now (length rows.now) (T.kept values.now) stops.old span_starts.old span_ends.old limit
        scratch.old first }
    requires values_lent { length rows.now ≤ length values.now }
    ensures { QueueClosed n starts.now rows.now (T.kept values.now) limit
        scratch.old first stops.new scratch.new result }
{
    let start = queue_start(n);
    let mut count = first;
    let mut head = 0;
    'queue: while head < count {
        let w = at(scratch, start + head);
        let r = w / PACKING;
        let c = w % PACKING;
        let next = after_span(head, c, span_starts, span_ends);
        if head < next {
            head = next;
            continue 'queue;
        }
        let before = count;
        let stop = find_stop(n, c, starts, rows, values, stops);
        let end = column_end(r, c, stop, starts, rows);
        'column: for p in at(starts, c)..end {
            let k = at(rows, p);
            if k <= c {
                continue 'column;
            }
            if !T::is_kept(values, p) {
                continue 'column;
            }
            count = insert_closure_pair(n, r, k, count, scratch);
            if limit < count {
                break 'queue;
            }
        }
        let total = end_column(
            n,
            r,
            c,
            stop,
            before,
            count,
            starts,
            rows,
            span_starts,
            span_ends,
            scratch,
        );
        count = total;
        if limit < total {
            break 'queue;
        }
        head += 1;
    }
    count
}
