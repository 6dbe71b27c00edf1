//! Why a journal file is not read, or not written further.

use std::alloc::{AllocError, AllocFailed};
use std::error::Error;
use std::fmt::{self, Display, Formatter, Write};

/// Why a journal file is not read, or not written further. The first four are faults of the file, of which the first from
/// the front is named: what decodes octets answers these or `OutOfMemory`, what reads a source also `Read`. What writes to
/// a sink answers `Write` or `OutOfMemory`. A fault's text is its name.
#[derive(Clone, Copy, Debug, PartialEq, Eq)]
pub enum Fault {
    /// The file doesn't begin with the letters `IPMJ`.
    BadMagic,
    /// The version of the format isn't 1.
    BadVersion,
    /// The file ends within its head, or before the entries that it announces are whole.
    Truncated,
    /// An entry of no kind, a text that isn't UTF-8, a name that no subscriber may have, an entry past the greatest
    /// limits of a journal, or octets behind the last entry.
    BadEntry,
    /// The source failed. What was read of the entry is lost.
    Read,
    /// The sink failed. Of the octets that were due, which are a head or one entry, `sent` were written, and that is not
    /// all of them. The file is broken there.
    Write { sent: usize },
    /// Want of memory. It says nothing of the file. Where an entry was read from a source, what was read of it is lost;
    /// nothing was written of the head or of the entry that was due.
    OutOfMemory,
}

impl Error for Fault {}

impl Display for Fault {
    ghost use Rattle.std.specs.Prelude.{Some};
    ghost use Rattle.journal_files.specs.FaultTexts.{journal_fault_text};

    ghost output = { λ fault. Some (journal_fault_text fault) };

    fn fmt<W: Write>(&self, f: &mut Formatter<W>) -> fmt::Result {
        f.write_str(match self {
            Fault::BadMagic => "BadMagic",
            Fault::BadVersion => "BadVersion",
            Fault::Truncated => "Truncated",
            Fault::BadEntry => "BadEntry",
            Fault::Read => "Read",
            Fault::Write { .. } => "Write",
            Fault::OutOfMemory => "OutOfMemory",
        })
    }
}

impl From<AllocError> for Fault {
    ghost use Rattle.std.specs.Prelude.{◌≡◌};
    ghost use Rattle.journal_files.specs.declared.fault.Fault.TheVariants.{OutOfMemory};

    ghost from_gives = { λ _ e. e ≡ OutOfMemory };

    fn from(_e: AllocError) -> Fault {
        Fault::OutOfMemory
    }
}

impl<T: Drop> From<AllocFailed<T>> for Fault {
    ghost use Rattle.std.specs.Prelude.{◌≡◌};
    ghost use Rattle.journal_files.specs.declared.fault.Fault.TheVariants.{OutOfMemory};

    ghost from_gives = { λ _ e. e ≡ OutOfMemory };

    fn from(_e: AllocFailed<T>) -> Fault {
        Fault::OutOfMemory
    }
}
