//! Why a history isn't verified.

use std::alloc::AllocError;
use std::error::Error;
use std::fmt::{self, Display, Formatter, Write};

/// Why a history isn't verified. A fault's text is its name.
#[derive(Clone, Copy, Debug, PartialEq, Eq)]
pub enum Fault {
    /// The entry at `position`, counted from 0, is none that a mediator may have accepted there, or it is a cut that
    /// what follows doesn't bear out. It is the first such entry.
    BadHistory { position: u64 },
    /// Want of memory. It says nothing of the history.
    OutOfMemory,
}

impl Error for Fault {}

impl Display for Fault {
    ghost use Rattle.std.specs.Prelude.{Some};
    ghost use Rattle.history_verify.specs.FaultTexts.{history_fault_text};

    ghost output = { λ fault. Some (history_fault_text fault) };

    fn fmt<W: Write>(&self, f: &mut Formatter<W>) -> fmt::Result {
        f.write_str(match self {
            Fault::BadHistory { .. } => "BadHistory",
            Fault::OutOfMemory => "OutOfMemory",
        })
    }
}

impl From<AllocError> for Fault {
    ghost use Rattle.std.specs.Prelude.{◌≡◌};
    ghost use Rattle.history_verify.specs.declared.fault.Fault.TheVariants.{OutOfMemory};

    ghost from_gives = { λ _ e. e ≡ OutOfMemory };

    fn from(_e: AllocError) -> Fault {
        Fault::OutOfMemory
    }
}
