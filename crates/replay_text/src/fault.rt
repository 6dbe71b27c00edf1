//! Why a text is no list of calls.

use std::alloc::{AllocError, AllocFailed};
use std::error::Error;
use std::fmt::{self, Display, Formatter, Write};

/// Why a text is no list of calls. Its text is `calls line` with the number, or `OutOfMemory`.
#[derive(Clone, Copy, Debug, PartialEq, Eq)]
pub enum Fault {
    /// The line of this number, from 1, asks for nothing that there is.
    Line(usize),
    /// Want of memory.
    OutOfMemory,
}

impl Error for Fault {}

impl Display for Fault {
    ghost use Rattle.replay_text.specs.FaultTexts.{text_of_calls_fault};
    ghost use Rattle.std.specs.Prelude.{Option, Some};

    ghost output = { λ fault. Some (text_of_calls_fault fault) };

    fn fmt<W: Write>(&self, f: &mut Formatter<W>) -> fmt::Result {
        match self {
            Fault::Line(number) => write!(f, "calls line {number}"),
            Fault::OutOfMemory => f.write_str("OutOfMemory"),
        }
    }
}

impl From<AllocError> for Fault {
    ghost use Rattle.std.specs.Prelude.{◌≡◌};
    ghost use Rattle.replay_text.specs.declared.fault.Fault.TheVariants.{OutOfMemory};

    ghost from_gives = { λ _ e. e ≡ OutOfMemory };

    fn from(_e: AllocError) -> Fault {
        Fault::OutOfMemory
    }
}

impl<T: Drop> From<AllocFailed<T>> for Fault {
    ghost use Rattle.std.specs.Prelude.{◌≡◌};
    ghost use Rattle.replay_text.specs.declared.fault.Fault.TheVariants.{OutOfMemory};

    ghost from_gives = { λ _ e. e ≡ OutOfMemory };

    fn from(_e: AllocFailed<T>) -> Fault {
        Fault::OutOfMemory
    }
}
