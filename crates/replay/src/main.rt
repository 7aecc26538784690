// Reads cases from standard input, makes their calls and writes the answers, both in the text form that replay/README.md gives.
#![tactic(auto)]

mod cases;
mod floors;
mod permutations;

ghost use Rattle.std.specs.Prelude.{◌≤◌, length, IfOk};

use answer_text::put;
use std::io;
use std::io::{BufWriter, Read, Write};

// Reads on behind the bytes that are held, until the window is full or the input ends; the reply is how many are held then.
fn fill(input: &mut impl Read, window: &mut [u8], held: usize) -> io::Result<usize>
    requires { held ≤ length window.old }
    ensures { IfOk result (λ filled. filled ≤ length window.new) }
{
    let mut filled = held;
    while filled < window.len() {
        let more = input.read(&mut window[filled..])?;
        if more == 0 {
            return Ok(filled);
        }
        filled += more;
    }
    Ok(filled)
}

// Moves the bytes from `from` to below `held` to the front; the reply is how many.
fn keep(window: &mut [u8], from: usize, held: usize) -> usize
    requires from_le_held { from ≤ held }
    requires held_in_bounds { held ≤ length window.old }
    ensures { result ≤ length window.new }
{
    window.copy_within(from..held, 0);
    held - from
}

// Makes the calls of the cases that are whole; the reply is how many bytes are held behind them.
fn play(out: &mut impl Write, window: &mut [u8], held: usize) -> io::Result<usize>
    requires { held ≤ length window.old }
    ensures { IfOk result (λ kept. kept ≤ length window.new) }
{
    let played = cases::replay(out, &window[0..held])?;
    Ok(keep(window, played, held))
}

// One window of the text after another; the reply is how many bytes are left, of a case without an end.
// The bound on the windows, which no text reaches, is there to show that they end.
fn play_all(input: &mut impl Read, out: &mut impl Write, window: &mut [u8]) -> io::Result<usize> {
    let mut held = 0;
    for _ in 0..u64::MAX {
        let filled = fill(input, window, held)?;
        if filled == held {
            return Ok(held);
        }
        held = play(out, window, filled)?;
    }
    Ok(held)
}

fn replay(
    input: &mut impl Read,
    out: &mut impl Write,
    window: &mut [u8; 1048576],
) -> io::Result<()> {
    if play_all(input, out, window)? > 0 {
        put(out, b"no end\n")?;
    }
    Ok(())
}

// A case may be as long as the window.
fn main(rt: HostRuntime) -> io::Result<()> {
    let mut window = [0u8; 1048576];
    let mut input = rt.reader();
    let mut out = BufWriter::new(rt.alloc(), io::writer(&rt))?;
    replay(&mut input, &mut out, &mut window)?;
    out.flush()
}
