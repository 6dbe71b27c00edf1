//! Why a mediator isn't given back. What its calls refuse is `mediator_state::Fault`.

use std::alloc::AllocError;
use std::error::Error;
use std::fmt::{self, Display, Formatter, Write};

/// Why a mediator isn't given back. A fault's text is its name.
#[derive(Clone, Copy, Debug, PartialEq, Eq)]
pub enum Fault {
    /// A handle that was made isn't among those handed in.
    MissingHandle,
    /// What the handle numbered `handle` keeps a receipt of at `position` doesn't stand in the journal there, is from
    /// before the lock, was kept twice, or stands out of order. Exporters count first, from 0, and then administrators.
    Mismatch { handle: u64, position: u64 },
    /// Want of memory. It says nothing of the receipts.
    OutOfMemory,
}

impl Error for Fault {}

impl Display for Fault {
    ghost use Rattle.std.specs.Prelude.{Option, Some};
    ghost use Rattle.shared_mediator.specs.FaultTexts.{text_of_close};

    ghost output = { λ fault. Some (text_of_close fault) };

    fn fmt<W: Write>(&self, f: &mut Formatter<W>) -> fmt::Result {
        f.write_str(match self {
            Fault::MissingHandle => "MissingHandle",
            Fault::Mismatch { .. } => "Mismatch",
            Fault::OutOfMemory => "OutOfMemory",
        })
    }
}

impl From<AllocError> for Fault {
    ghost use Rattle.std.specs.Prelude.{◌≡◌};
    ghost use Rattle.shared_mediator.specs.declared.fault.Fault.TheVariants.{OutOfMemory};

    ghost from_gives = { λ _ e. e ≡ OutOfMemory };

    fn from(_e: AllocError) -> Fault {
        Fault::OutOfMemory
    }
}
