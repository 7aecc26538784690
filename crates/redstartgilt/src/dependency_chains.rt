// The chain to a pair of the closed set.
ghost use Rattle.dependency_chain.specs.Chain.{chain_call, ChainListed};
ghost use Rattle.c_replies.specs.Numbers.{pair_numbers, Shows};
ghost use Rattle.refusal.specs.Refusal.{reply_of};

use c_replies::PairNumbers;
use dependency_chain::dependency_chain;

// The chain from a requested pair to a pair of the closed set.
#[unsafe(no_mangle)]
pub extern "C" fn redstartgilt_dependency_chain(
    n: usize,
    starts: &[u32],
    rows: &[u32],
    values: &[f64],
    dimension: usize,
    request_rows: &[u32],
    request_columns: &[u32],
    row: usize,
    column: usize,
    scratch: &mut [u32],
    chain_rows: &mut [u32],
    chain_columns: &mut [u32],
) -> PairNumbers
    ensures { Shows (λ d. pair_numbers (reply_of d)) (λ d. ChainListed
        (chain_call n starts.now rows.now values.now dimension request_rows.now request_columns.now row column)
        scratch.old chain_rows.old chain_columns.old (reply_of d)
        scratch.new chain_rows.new chain_columns.new) result }
{
    PairNumbers::from(dependency_chain(
        n,
        starts,
        rows,
        values,
        dimension,
        request_rows,
        request_columns,
        row,
        column,
        scratch,
        chain_rows,
        chain_columns,
    ))
}
