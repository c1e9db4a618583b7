//! The outcome of a mend.
use std::fmt;

/// How many answers of each kind there are.
#[derive(Clone, Copy, Debug, Default, PartialEq, Eq)]
pub struct Report {
    /// Fragments that were rebuilt.
    pub repaired: u64,
    /// Fragments that were not lost any more.
    pub not_lost: u64,
    /// Fragments of blobs that are gone: `NoName` or `NoFragment`.
    pub gone: u64,
    /// Fragments that are unrecoverable.
    pub unrecoverable: u64,
}

/// Why results can't be gathered.
#[derive(Clone, Copy, Debug, Drop, PartialEq, Eq)]
pub enum Gather {
    /// The ticket of a result is past the plan's end, or its item is not the plan's.
    Stranger = 1,
    /// The ticket of a result has an earlier result.
    Twice = 2,
    /// An item of the plan has no result.
    Missing = 3,
    /// A request for memory was refused.
    NoMemory = 4,
}

/// `mended`, and the four numbers: repaired, not lost, gone, unrecoverable.
impl fmt::Display for Report {
    ghost use Rattle.std.specs.Prelude.{Some};
    ghost use Rattle.mender.specs.Line.{report_line};

    ghost output = { λ report. Some (report_line report) };

    fn fmt<W: fmt::Write>(&self, f: &mut fmt::Formatter<W>) -> fmt::Result {
        let Report {
            repaired,
            not_lost,
            gone,
            unrecoverable,
        } = self;
        write!(f, "mended {repaired} {not_lost} {gone} {unrecoverable}")
    }
}
