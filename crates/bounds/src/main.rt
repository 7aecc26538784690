// Calls with 1,048,577 entries, requests or terms, which are refused by 1, and with 1,048,576, which are not; and lookups of the largest index. The text of `replay` has no room for such lists, nor for such an index of a pair.
// What the lists lent for writing hold is written after each call; they hold 7777 before it.
#![tactic(auto)]

mod calls;

use std::io;
use std::io::{BufWriter, Write};

// All calls with so many indices, each 0.
fn all(out: &mut impl Write, indices: &[u32]) -> io::Result<()> {
    calls::factor_pattern(out, indices)?;
    calls::operator_pattern(out, indices)?;
    calls::factor_entries(out, indices)?;
    calls::requests(out, indices)?;
    calls::original_diagonal(out, indices)?;
    calls::variances_of_factor(out, indices)?;
    calls::variances_of_terms(out, indices)
}

fn above_and_within(out: &mut impl Write, indices: &[u32], most: usize) -> io::Result<()> {
    all(out, indices)?;
    if most <= indices.len() {
        all(out, &indices[0..most])?;
    }
    Ok(())
}

fn bounds(out: &mut impl Write, indices: &[u32; 1048577]) -> io::Result<()> {
    above_and_within(out, indices, 1048576)
}

fn main(rt: HostRuntime) -> io::Result<()> {
    let indices = [0u32; 1048577];
    let mut out = BufWriter::new(rt.alloc(), io::writer(&rt))?;
    bounds(&mut out, &indices)?;
    calls::lookups(&mut out)?;
    out.flush()
}
