// The cases of a text, one after another.
ghost use Rattle.std.specs.Prelude.{◌<◌, ◌≤◌, length, IfOk, MatchOption, ⊤};

use super::floors::{least_value, stabilization};
use super::permutations::{application, inversion, marked_application, validation};
use answer_text::put;
use case_text::{begins, skip_blanks, skip_to, skip_word};
use replay_entries::{entries, ldl};
use replay_files::{reading, writing};
use replay_lookups::searches::searches;
use replay_lookups::{diagonals, lookups};
use replay_patterns::chain_cases::chains;
use replay_patterns::{factor_pattern, operator_pattern};
use replay_variances::{covariances, operator_variances, original_diagonal};
use replay_whole::{whole_entries, whole_lookups};
use replay_whole_results::{bounds, track};
use std::io;
use std::io::Write;

// The call of the kind that the line names, and its answer.
fn call(out: &mut impl Write, text: &[u8], line: &[u8]) -> io::Result<()> {
    match line {
        b"entries\n" => entries(out, text),
        b"ldl\n" => ldl(out, text),
        b"wentries\n" => whole_entries(out, text),
        b"wget\n" => whole_lookups(out, text),
        b"bounds\n" => bounds(out, text),
        b"track\n" => track(out, text),
        b"diagorig\n" => original_diagonal(out, text),
        b"opvar\n" => operator_variances(out, text),
        b"covar\n" => covariances(out, text),
        b"get\n" => lookups(out, text),
        b"diag\n" => diagonals(out, text),
        b"search\n" => searches(out, text),
        b"patfactor\n" => factor_pattern(out, text),
        b"patoperator\n" => operator_pattern(out, text),
        b"chain\n" => chains(out, text),
        b"permvalidate\n" => validation(out, text),
        b"permfrom\n" => inversion(out, text),
        b"permapply\n" => application(out, text),
        b"permmarked\n" => marked_application(out, text),
        b"floor\n" => stabilization(out, text),
        b"least\n" => least_value(out, text),
        b"mmread\n" => reading(out, text),
        b"mmwrite\n" => writing(out, text),
        _ => put(out, b"unknown kind\n"),
    }
}

// A case: its first line as it stands, the answer, and its last line.
fn case(out: &mut impl Write, text: &[u8]) -> io::Result<()> {
    let name = skip_to(text, 0, b"case ");
    let kind = skip_blanks(text, skip_word(text, name));
    put(out, b"case ")?;
    if let Some(head) = text.get(name..skip_word(text, kind)) {
        put(out, head)?;
    }
    put(out, b"\n")?;
    let line = text.get(kind..skip_to(text, kind, b"\n")).unwrap_or(&[]);
    call(out, text, line)?;
    put(out, b"end\n")
}

// The place after the case at p, if the text has its end. `begins` tells most places by their first byte, `==` takes several times as long.
fn past_case(text: &[u8], p: usize) -> Option<usize>
    requires { p ≤ length text.now }
    ensures { MatchOption result ⊤ (λ past. (p < past) × (past ≤ length text.now)) }
{
    let last = text[p..]
        .windows(5)
        .position(|part| begins(part, 0, b"\nend\n"))?;
    Some(p + last + 5)
}

// All cases that are whole in the text; the reply is the place after them.
pub fn replay(out: &mut impl Write, text: &[u8]) -> io::Result<usize>
    ensures { IfOk result (λ past. past ≤ length text.now) }
{
    let mut p = 0;
    while let Some(past) = past_case(text, p) {
        case(out, &text[p..past])?;
        p = past;
    }
    Ok(p)
}
