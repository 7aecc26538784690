// Answers as structs of numbers, laid out as in C: the number of a refusal, 0 for none, beside what the call tells, 0 where it is refused.
#![tactic(auto)]

ghost use Rattle.std.specs.Prelude.{◌≡◌};
ghost use Rattle.c_replies.specs.Numbers.{status_number, selected_numbers, entry_numbers, counted_numbers, whole_entry_numbers, bounds_numbers, pair_numbers, requests_numbers, bytes_numbers, floor_numbers, least_numbers};
ghost use Rattle.refusal.specs.Refusal.{reply_of};

use diagnostics::{SelectedInverseDiagnostics, SelectedInverseStatus};
use floor::StabilizedVariance;
use least::CountAndLeast;
use lookup::ordered::CountedEntry;
use refusal::Refusal;
use verdicts::refusal_number;

// The answer of a call that selects entries.
#[repr(C)]
#[derive(Clone, Copy)]
pub struct SelectedNumbers {
    pub refusal: u32,
    pub status: u32,
    pub requested_pairs: usize,
    pub closure_pairs: usize,
    pub factor_pairs: usize,
    pub closure_limit: usize,
    pub closure_over_factor: f64,
}

// The answer of a lookup.
#[repr(C)]
#[derive(Clone, Copy)]
pub struct EntryNumbers {
    pub refusal: u32,
    pub value: f64,
}

// The answer of a lookup that counts the places it looks at.
#[repr(C)]
#[derive(Clone, Copy)]
pub struct CountedNumbers {
    pub refusal: u32,
    pub value: f64,
    pub looks: usize,
}

// The answer of a lookup in a result of whole numbers.
#[repr(C)]
#[derive(Clone, Copy)]
pub struct WholeEntryNumbers {
    pub refusal: u32,
    pub value: i64,
}

// The bounds on a row's variance.
#[repr(C)]
#[derive(Clone, Copy)]
pub struct BoundsNumbers {
    pub refusal: u32,
    pub low: i64,
    pub high: i64,
}

// The answer of a pattern list, or of a chain: how many pairs; of a chain 0 where the pair is not in the set.
#[repr(C)]
#[derive(Clone, Copy)]
pub struct PairNumbers {
    pub refusal: u32,
    pub pairs: usize,
}

// The answer of reading a file of requests.
#[repr(C)]
#[derive(Clone, Copy)]
pub struct RequestsNumbers {
    pub refusal: u32,
    pub dimension: usize,
    pub requests: usize,
}

// The answer of writing requests as a file.
#[repr(C)]
#[derive(Clone, Copy)]
pub struct BytesNumbers {
    pub refusal: u32,
    pub bytes: usize,
}

// The answer of the floor.
#[repr(C)]
#[derive(Clone, Copy)]
pub struct FloorNumbers {
    pub refusal: u32,
    pub floor: f64,
    pub floor_hits: usize,
}

// The count and the least.
#[repr(C)]
#[derive(Clone, Copy)]
pub struct LeastNumbers {
    pub num_negative: usize,
    pub min_value: f64,
}

// 0 for Complete, 1 for ClosureTooLarge.
fn status_number(status: SelectedInverseStatus) -> u32
    ensures { result ≡ status_number status }
{
    match status {
        SelectedInverseStatus::Complete => 0,
        SelectedInverseStatus::ClosureTooLarge => 1,
    }
}

impl From<Result<SelectedInverseDiagnostics, Refusal>> for SelectedNumbers {
    ghost from_gives = { λ answer numbers. numbers ≡ selected_numbers (reply_of answer) };

    fn from(answer: Result<SelectedInverseDiagnostics, Refusal>) -> SelectedNumbers {
        match answer {
            Ok(d) => {
                let status = d.status;
                SelectedNumbers {
                    refusal: 0,
                    status: status_number(status),
                    requested_pairs: d.requested_pairs,
                    closure_pairs: d.closure_pairs,
                    factor_pairs: d.factor_pairs,
                    closure_limit: d.closure_limit,
                    closure_over_factor: d.closure_over_factor,
                }
            }
            Err(why) => SelectedNumbers {
                refusal: refusal_number(why),
                status: 0,
                requested_pairs: 0,
                closure_pairs: 0,
                factor_pairs: 0,
                closure_limit: 0,
                closure_over_factor: 0.0,
            },
        }
    }
}

impl From<Result<f64, Refusal>> for EntryNumbers {
    ghost from_gives = { λ entry numbers. numbers ≡ entry_numbers (reply_of entry) };

    fn from(entry: Result<f64, Refusal>) -> EntryNumbers {
        match entry {
            Ok(z) => EntryNumbers {
                refusal: 0,
                value: z,
            },
            Err(why) => EntryNumbers {
                refusal: refusal_number(why),
                value: 0.0,
            },
        }
    }
}

impl From<CountedEntry> for CountedNumbers {
    ghost from_gives = { λ found numbers. numbers ≡ counted_numbers (reply_of found.entry) found.looks };

    fn from(found: CountedEntry) -> CountedNumbers {
        let entry = found.entry;
        let numbers = EntryNumbers::from(entry);
        CountedNumbers {
            refusal: numbers.refusal,
            value: numbers.value,
            looks: found.looks,
        }
    }
}

impl From<Result<i64, Refusal>> for WholeEntryNumbers {
    ghost from_gives = { λ entry numbers. numbers ≡ whole_entry_numbers (reply_of entry) };

    fn from(entry: Result<i64, Refusal>) -> WholeEntryNumbers {
        match entry {
            Ok(z) => WholeEntryNumbers {
                refusal: 0,
                value: z,
            },
            Err(why) => WholeEntryNumbers {
                refusal: refusal_number(why),
                value: 0,
            },
        }
    }
}

impl From<Result<(i64, i64), Refusal>> for BoundsNumbers {
    ghost from_gives = { λ answer numbers. numbers ≡ bounds_numbers (reply_of answer) };

    fn from(answer: Result<(i64, i64), Refusal>) -> BoundsNumbers {
        match answer {
            Ok((low, high)) => BoundsNumbers {
                refusal: 0,
                low: low,
                high: high,
            },
            Err(why) => BoundsNumbers {
                refusal: refusal_number(why),
                low: 0,
                high: 0,
            },
        }
    }
}

impl From<Result<usize, Refusal>> for PairNumbers {
    ghost from_gives = { λ answer numbers. numbers ≡ pair_numbers (reply_of answer) };

    fn from(answer: Result<usize, Refusal>) -> PairNumbers {
        match answer {
            Ok(count) => PairNumbers {
                refusal: 0,
                pairs: count,
            },
            Err(why) => PairNumbers {
                refusal: refusal_number(why),
                pairs: 0,
            },
        }
    }
}

impl From<Result<(usize, usize), Refusal>> for RequestsNumbers {
    ghost from_gives = { λ answer numbers. numbers ≡ requests_numbers (reply_of answer) };

    fn from(answer: Result<(usize, usize), Refusal>) -> RequestsNumbers {
        match answer {
            Ok((dimension, count)) => RequestsNumbers {
                refusal: 0,
                dimension: dimension,
                requests: count,
            },
            Err(why) => RequestsNumbers {
                refusal: refusal_number(why),
                dimension: 0,
                requests: 0,
            },
        }
    }
}

impl From<Result<usize, Refusal>> for BytesNumbers {
    ghost from_gives = { λ answer numbers. numbers ≡ bytes_numbers (reply_of answer) };

    fn from(answer: Result<usize, Refusal>) -> BytesNumbers {
        match answer {
            Ok(count) => BytesNumbers {
                refusal: 0,
                bytes: count,
            },
            Err(why) => BytesNumbers {
                refusal: refusal_number(why),
                bytes: 0,
            },
        }
    }
}

impl From<Result<StabilizedVariance, Refusal>> for FloorNumbers {
    ghost from_gives = { λ answer numbers. numbers ≡ floor_numbers (reply_of answer) };

    fn from(answer: Result<StabilizedVariance, Refusal>) -> FloorNumbers {
        match answer {
            Ok(s) => FloorNumbers {
                refusal: 0,
                floor: s.floor,
                floor_hits: s.floor_hits,
            },
            Err(why) => FloorNumbers {
                refusal: refusal_number(why),
                floor: 0.0,
                floor_hits: 0,
            },
        }
    }
}

impl From<CountAndLeast> for LeastNumbers {
    ghost from_gives = { λ answer numbers. numbers ≡ least_numbers answer };

    fn from(answer: CountAndLeast) -> LeastNumbers {
        LeastNumbers {
            num_negative: answer.num_negative,
            min_value: answer.min_value,
        }
    }
}
