//! Why a text is no policy, and the texts of these faults.
use std::alloc::{AllocError, AllocFailed};
use std::error::Error;
use std::fmt::{self, Display, Formatter, Write};

/// What is wrong with the first word that doesn't fit. Its text is its name.
#[derive(Clone, Copy, Debug, PartialEq, Eq)]
pub enum FaultKind {
    /// The first line that isn't skipped is neither `policy 1` nor `policy 2`.
    NoHeader,
    /// Another word than the grammar's keyword, a line that ends early, or a word too many.
    UnknownWord,
    /// No name, or no element's name.
    BadName,
    /// No number in the range of its place.
    BadNumber,
    /// No prefix.
    BadPrefix,
    /// `truncate` of an element without a width, or to more bits than its width.
    BadTruncate,
    /// A rule's aggregate that no line before defines.
    UnknownAggregate,
    /// A second aggregate of one name.
    DoubleAggregate,
    /// A key element of another kind, repeated, or the seventeenth.
    BadKey,
    /// One rule or aggregate too many.
    TooMany,
    /// Memory ran out.
    OutOfMemory,
    /// `degrade` of an element whose values are no times.
    BadDegrade,
}

impl Error for FaultKind {}

impl Display for FaultKind {
    ghost use Rattle.std.specs.Prelude.{Option, Some};
    ghost use Rattle.policy_text.specs.FaultTexts.{text_of_kind};

    ghost output = { λ kind. Some (text_of_kind kind) };

    fn fmt<W: Write>(&self, f: &mut Formatter<W>) -> fmt::Result {
        f.write_str(match self {
            FaultKind::NoHeader => "NoHeader",
            FaultKind::UnknownWord => "UnknownWord",
            FaultKind::BadName => "BadName",
            FaultKind::BadNumber => "BadNumber",
            FaultKind::BadPrefix => "BadPrefix",
            FaultKind::BadTruncate => "BadTruncate",
            FaultKind::UnknownAggregate => "UnknownAggregate",
            FaultKind::DoubleAggregate => "DoubleAggregate",
            FaultKind::BadKey => "BadKey",
            FaultKind::TooMany => "TooMany",
            FaultKind::OutOfMemory => "OutOfMemory",
            FaultKind::BadDegrade => "BadDegrade",
        })
    }
}

impl From<AllocError> for FaultKind {
    ghost use Rattle.std.specs.Prelude.{◌≡◌};
    ghost use Rattle.policy_text.specs.declared.fault.FaultKind.TheVariants.{OutOfMemory};

    ghost from_gives = { λ _ e. e ≡ OutOfMemory };

    fn from(_e: AllocError) -> FaultKind {
        FaultKind::OutOfMemory
    }
}

impl<T: Drop> From<AllocFailed<T>> for FaultKind {
    ghost use Rattle.std.specs.Prelude.{◌≡◌};
    ghost use Rattle.policy_text.specs.declared.fault.FaultKind.TheVariants.{OutOfMemory};

    ghost from_gives = { λ _ e. e ≡ OutOfMemory };

    fn from(_e: AllocFailed<T>) -> FaultKind {
        FaultKind::OutOfMemory
    }
}

/// Why a text is no policy: the first faulty line, counted from 1, and what is wrong with the first word
/// in it that doesn't fit. The line is 0 where memory ran out. Its text is the kind's name.
#[derive(Clone, Copy, Debug, PartialEq, Eq)]
pub struct Fault {
    /// The number of the faulty line, from 1. It is 0 where memory ran out.
    pub line: usize,
    /// What is wrong in it.
    pub kind: FaultKind,
}

impl Error for Fault {}

impl Display for Fault {
    ghost use Rattle.std.specs.Prelude.{Option, Some};
    ghost use Rattle.policy_text.specs.FaultTexts.{text_of_kind};

    ghost output = { λ fault. Some (text_of_kind fault.kind) };

    fn fmt<W: Write>(&self, f: &mut Formatter<W>) -> fmt::Result {
        write!(f, "{}", self.kind)
    }
}
