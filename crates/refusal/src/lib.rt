// The refusals of documents 01 and 02: the errors of every call.
#![tactic(auto)]

// Why a call is refused; `refusal_number` of specs/Refusal.antt gives the documents' number of each.
#[derive(Clone, Copy)]
pub enum Refusal {
    TooLarge,
    BrokenStarts,
    BrokenRows,
    DimensionMismatch,
    RequestOutOfRange,
    NonPositiveDefinite,
    TooShort,
    NotCovered,
    BrokenOperator,
    IndexTooLarge,
    DuplicateEntry,
    NotInverse,
    NotFinite,
    BadScale,
    OtherHeader,
    MalformedFile,
    FileIndexOutside,
    NotFiniteEntry,
    DiagonalNotOne,
    NumberTooLarge,
    BadWeights,
    BadWidth,
    PivotDiagonalNotOne,
    NoRequests,
}

// The bounds of refusal 1: on a dimension, and on stored entries, requests and terms.
pub const MAX_DIMENSION: usize = 4096;

pub const MAX_ENTRIES: usize = 1048576;
