// The chain from a requested pair to a pair of the closed set, each pair a dependency of the one before.
#![tactic(auto)]

ghost use Rattle.std.specs.Prelude.{◌≡◌, ◌≤◌, length};
ghost use Rattle.refusal.specs.Bounds.{max_dimension};
ghost use Rattle.refusal.specs.Steps.{verdict};
ghost use Rattle.refusal.specs.Refusal.{reply_of};
ghost use Rattle.lists.specs.Overwrite.{cleared};
ghost use Rattle.pairs.specs.Scratch.{chain_words};
ghost use Rattle.columns.specs.Kept.{nonzero, pattern};
ghost use Rattle.closed_set.specs.Requests.{requested};
ghost use Rattle.chains.specs.ChainOf.{chain_of};
ghost use Rattle.levels.specs.Levels.{level_word};
ghost use Rattle.levels.specs.Back.{levels_chain};
ghost use Rattle.dependency_chain.specs.Chain.{chain_call, seek_steps, asked_steps, Listed, ChainListed};
ghost use Rattle.dependency_chain.specs.Laws.{ListInput, SeekInput};

use factor_check::bounds::check_bounds;
use factor_check::check_stored;
use kept_entries::diagonal_check::check_diagonals;
use levels::chain::write_chain;
use levels::closing::level_pairs;
use pair_places::column_place;
use pair_places::scratch::chain_words;
use refusal::Refusal;
use selected_checks::check_request_bound;
use selected_checks::requests::check_requests;
use words::{at, clear};

// 7 of the scratch and 5 of the pair.
fn check_seek(n: usize, scratch: usize, row: usize, column: usize) -> Result<(), Refusal>
    requires { n ≤ max_dimension }
    ensures { reply_of result ≡ verdict (seek_steps n scratch row column) }
{
    if scratch < chain_words(n) {
        return Err(Refusal::TooShort);
    }
    if n <= row {
        return Err(Refusal::RequestOutOfRange);
    }
    if n <= column {
        return Err(Refusal::RequestOutOfRange);
    }
    Ok(())
}

// What is refused before the chain is looked for; `scratch` is its length.
fn check_asked(
    n: usize,
    starts: &[u32],
    rows: &[u32],
    values: &[f64],
    dimension: usize,
    request_rows: &[u32],
    request_columns: &[u32],
    row: usize,
    column: usize,
    scratch: usize,
) -> Result<(), Refusal>
    ensures { reply_of result ≡ verdict (asked_steps
        (chain_call n starts.now rows.now values.now dimension request_rows.now request_columns.now row column)
        scratch) }
{
    check_bounds(n, rows.len())?;
    check_request_bound(request_rows.len())?;
    check_stored(n, starts, rows, values)?;
    check_requests(n, dimension, request_rows, request_columns)?;
    check_diagonals(n, starts, rows, values)?;
    check_seek(n, scratch, row, column)
}

// Lists the chain to (r, c), which has the level, if there is room for it.
fn list_chain(
    n: usize,
    starts: &[u32],
    rows: &[u32],
    values: &[f64],
    r: usize,
    c: usize,
    level: usize,
    scratch: &[u32],
    chain_rows: &mut [u32],
    chain_columns: &mut [u32],
) -> Result<usize, Refusal>
    requires { ListInput n starts.now rows.now (length values.now) r c level scratch.now }
    ensures { Listed (levels_chain (pattern starts.now rows.now (nonzero values.now)) (level_word n scratch.now) r c)
        chain_rows.old chain_columns.old (reply_of result) chain_rows.new chain_columns.new }
{
    if level == 0 {
        return Ok(0);
    }
    if chain_rows.len() < level {
        return Err(Refusal::TooShort);
    }
    if chain_columns.len() < level {
        return Err(Refusal::TooShort);
    }
    write_chain(
        n,
        starts,
        rows,
        values,
        r,
        c,
        level,
        scratch,
        chain_rows,
        chain_columns,
    );
    Ok(level)
}

// Looks for the chain to (r, c), r at least c, and lists it; the scratch ends 0.
fn seek_chain(
    n: usize,
    starts: &[u32],
    rows: &[u32],
    values: &[f64],
    request_rows: &[u32],
    request_columns: &[u32],
    r: usize,
    c: usize,
    scratch: &mut [u32],
    chain_rows: &mut [u32],
    chain_columns: &mut [u32],
) -> Result<usize, Refusal>
    requires { SeekInput n starts.now rows.now (length values.now) request_rows.now request_columns.now r c scratch.old }
    ensures listed { Listed (chain_of n (pattern starts.now rows.now (nonzero values.now)) (requested request_rows.now request_columns.now) r c)
        chain_rows.old chain_columns.old (reply_of result) chain_rows.new chain_columns.new }
    ensures scratch_after { scratch.new ≡ cleared (chain_words n) scratch.old }
{
    level_pairs(
        n,
        starts,
        rows,
        values,
        request_rows,
        request_columns,
        scratch,
    );
    let level = at(scratch, column_place(n, r, c));
    let answer = list_chain(
        n,
        starts,
        rows,
        values,
        r,
        c,
        level,
        scratch,
        chain_rows,
        chain_columns,
    );
    clear(scratch, chain_words(n));
    answer
}

// The chain to the pair of a row and a column, exchanged if row < column.
pub fn dependency_chain(
    n: usize,
    starts: &[u32],
    rows: &[u32],
    values: &[f64],
    dimension: usize,
    request_rows: &[u32],
    request_columns: &[u32],
    row: usize,
    column: usize,
    scratch: &mut [u32],
    chain_rows: &mut [u32],
    chain_columns: &mut [u32],
) -> Result<usize, Refusal>
    ensures { ChainListed
        (chain_call n starts.now rows.now values.now dimension request_rows.now request_columns.now row column)
        scratch.old chain_rows.old chain_columns.old (reply_of result)
        scratch.new chain_rows.new chain_columns.new }
{
    check_asked(
        n,
        starts,
        rows,
        values,
        dimension,
        request_rows,
        request_columns,
        row,
        column,
        scratch.len(),
    )?;
    seek_chain(
        n,
        starts,
        rows,
        values,
        request_rows,
        request_columns,
        row.max(column),
        row.min(column),
        scratch,
        chain_rows,
        chain_columns,
    )
}
