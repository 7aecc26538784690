// The verdict of an output's room, and the numbers of refusals.
#![tactic(auto)]

ghost use Rattle.std.specs.Prelude.{◌≡◌};
ghost use Rattle.refusal.specs.Steps.{verdict};
ghost use Rattle.refusal.specs.Bounds.{output_steps};
ghost use Rattle.refusal.specs.Refusal.{refusal_number, reply_of};
ghost use Rattle.verdicts.specs.Number.{checked_number};

use refusal::Refusal;

// 7: an output of fewer places than are needed.
pub fn check_output(needed: usize, output: usize) -> Result<(), Refusal>
    ensures { reply_of result ≡ verdict (output_steps needed output) }
{
    if output < needed {
        return Err(Refusal::TooShort);
    }
    Ok(())
}

// The number of a refusal.
pub fn refusal_number(r: Refusal) -> u32
    ensures { result ≡ refusal_number r }
{
    match r {
        Refusal::TooLarge => 1,
        Refusal::BrokenStarts => 2,
        Refusal::BrokenRows => 3,
        Refusal::DimensionMismatch => 4,
        Refusal::RequestOutOfRange => 5,
        Refusal::NonPositiveDefinite => 6,
        Refusal::TooShort => 7,
        Refusal::NotCovered => 8,
        Refusal::BrokenOperator => 9,
        Refusal::IndexTooLarge => 10,
        Refusal::DuplicateEntry => 11,
        Refusal::NotInverse => 12,
        Refusal::NotFinite => 13,
        Refusal::BadScale => 14,
        Refusal::OtherHeader => 15,
        Refusal::MalformedFile => 16,
        Refusal::FileIndexOutside => 17,
        Refusal::NotFiniteEntry => 18,
        Refusal::DiagonalNotOne => 19,
        Refusal::NumberTooLarge => 20,
        Refusal::BadWeights => 21,
        Refusal::BadWidth => 22,
        Refusal::PivotDiagonalNotOne => 23,
        Refusal::NoRequests => 24,
    }
}

// 0 where a call is accepted, else the refusal's number.
pub fn checked_number(r: Result<(), Refusal>) -> u32
    ensures { result ≡ checked_number r }
{
    match r {
        Ok(()) => 0,
        Err(why) => refusal_number(why),
    }
}
