// The floor under variances, and the count and least of them.
use answer_text::answers::{put_least, put_output, put_stabilized};
use case_lists::lent::lent_output;
use case_lists::{ROOM, input};
use case_text::{begins, float_value, skip_to};
use floor::stabilize_variances;
use floor::variance_floor::VarianceFloor;
use least::count_and_least;
use std::io;
use std::io::Write;

// The floor of the case.
fn floor_of(text: &[u8]) -> VarianceFloor {
    if begins(text, skip_to(text, 0, b"\nfloor "), b"mean") {
        return VarianceFloor::PositiveMean {
            scale: float_value(text, skip_to(text, 0, b"\nscale ")),
        };
    }
    VarianceFloor::Zero
}

// Kind floor; where the case lends no output, one of 7777.
pub fn stabilization(out: &mut impl Write, text: &[u8]) -> io::Result<()> {
    let mut values = [0.0; ROOM];
    let mut output = [7777.0; ROOM];
    let output = lent_output(text, &mut output);
    put_stabilized(
        out,
        stabilize_variances(input(text, &mut values), floor_of(text), output),
    )?;
    put_output(out, output)
}

// Kind least.
pub fn least_value(out: &mut impl Write, text: &[u8]) -> io::Result<()> {
    let mut values = [0.0; ROOM];
    let answer = count_and_least(input(text, &mut values));
    put_least(out, answer.num_negative, answer.min_value)
}
