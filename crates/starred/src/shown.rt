// Tests of the replies to the starred cases' calls for selected entries.
ghost use Rattle.std.specs.Prelude.{◌≡◌};
ghost use Rattle.selected_entry.specs.SelectedEntry.{answer_of};
ghost use Rattle.starred_table.specs.Counts.{shows_of, counted_of, has_ratio};
ghost use Rattle.starred_table.specs.Entries.{is_value, is_absent, is_refused};
ghost use Rattle.refusal.specs.Refusal.{reply_of};

use diagnostics::SelectedInverseDiagnostics;
use refusal::Refusal;
use selected_entry::SelectedEntry;
use verdicts::refusal_number;

// Whether a diagnosis has these counts and is complete or not.
fn shows(
    d: SelectedInverseDiagnostics,
    requested: usize,
    closure: usize,
    factor: usize,
    complete: bool,
) -> bool
    ensures { result ≡ shows_of d requested closure factor complete }
{
    if d.requested_pairs != requested {
        return false;
    }
    if d.closure_pairs != closure {
        return false;
    }
    if d.factor_pairs != factor {
        return false;
    }
    if complete {
        return d.is_complete();
    }
    !d.is_complete()
}

// Whether a call is answered with these counts and a status that is Complete or not.
pub fn counted(
    reply: Result<SelectedInverseDiagnostics, Refusal>,
    requested: usize,
    closure: usize,
    factor: usize,
    complete: bool,
) -> bool
    ensures { result ≡ counted_of (reply_of reply) requested closure factor complete }
{
    match reply {
        Ok(d) => shows(d, requested, closure, factor, complete),
        Err(_) => false,
    }
}

// Whether a call is answered with this ratio.
pub fn has_ratio(reply: Result<SelectedInverseDiagnostics, Refusal>, ratio: f64) -> bool
    ensures { result ≡ has_ratio (reply_of reply) ratio }
{
    match reply {
        Ok(d) => d.closure_over_factor == ratio,
        Err(_) => false,
    }
}

// Whether the lookup found this value.
pub fn is_value(e: SelectedEntry, v: f64) -> bool
    ensures { result ≡ is_value (answer_of e) v }
{
    match e {
        SelectedEntry::Found(entry) => match entry {
            Ok(z) => z == v,
            Err(_) => false,
        },
        SelectedEntry::ClosureTooLarge => false,
        SelectedEntry::Refused(_) => false,
    }
}

// Whether the lookup gave 8.
pub fn is_absent(e: SelectedEntry) -> bool
    ensures { result ≡ is_absent (answer_of e) }
{
    match e {
        SelectedEntry::Found(entry) => match entry {
            Ok(_) => false,
            Err(why) => refusal_number(why) == 8,
        },
        SelectedEntry::ClosureTooLarge => false,
        SelectedEntry::Refused(_) => false,
    }
}

// Whether the call was refused with this number.
pub fn is_refused(e: SelectedEntry, number: u32) -> bool
    ensures { result ≡ is_refused (answer_of e) number }
{
    match e {
        SelectedEntry::Found(_) => false,
        SelectedEntry::ClosureTooLarge => false,
        SelectedEntry::Refused(why) => refusal_number(why) == number,
    }
}
