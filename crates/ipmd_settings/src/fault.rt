//! Why a text gives no settings.

use crate::key::Key;
use std::alloc::{AllocError, AllocFailed};
use std::error::Error;
use std::fmt::{self, Display, Formatter, Write};

/// Why a text gives no settings. Its text is the key at fault, or `toml`, `length` or `OutOfMemory`.
#[derive(Clone, Copy, Debug, PartialEq, Eq)]
pub enum Fault {
    /// The text has more octets than settings may have: more than [`LONGEST_TEXT`](crate::LONGEST_TEXT).
    TooLong,
    /// The text is no TOML.
    Toml,
    /// The first key that must be there and isn't, or whose value is of another type or out of its range.
    Key(Key),
    /// Want of memory.
    OutOfMemory,
}

impl Error for Fault {}

impl Display for Fault {
    ghost use Rattle.std.specs.Prelude.{Option, Some};
    ghost use Rattle.ipmd_settings.specs.Names.{settings_fault_text};

    ghost output = { λ fault. Some (settings_fault_text fault) };

    fn fmt<W: Write>(&self, f: &mut Formatter<W>) -> fmt::Result {
        f.write_str(match self {
            Fault::TooLong => "length",
            Fault::Toml => "toml",
            Fault::Key(key) => key.name(),
            Fault::OutOfMemory => "OutOfMemory",
        })
    }
}

impl From<toml::de::Error> for Fault {
    ghost use Rattle.std.specs.Prelude.{◌≡◌, ◌⊎◌};
    ghost use Rattle.toml.specs.Errors.{IsMemory};
    ghost use Rattle.ipmd_settings.specs.declared.fault.Fault.TheVariants.{Toml, OutOfMemory};

    ghost from_gives = { λ error e. (IsMemory error × (e ≡ OutOfMemory)) ⊎ ((¬ IsMemory error) × (e ≡ Toml)) };

    fn from(error: toml::de::Error) -> Fault {
        if error.is_memory() {
            Fault::OutOfMemory
        } else {
            Fault::Toml
        }
    }
}

impl From<AllocError> for Fault {
    ghost use Rattle.std.specs.Prelude.{◌≡◌};
    ghost use Rattle.ipmd_settings.specs.declared.fault.Fault.TheVariants.{OutOfMemory};

    ghost from_gives = { λ _ e. e ≡ OutOfMemory };

    fn from(_e: AllocError) -> Fault {
        Fault::OutOfMemory
    }
}

impl<T: Drop> From<AllocFailed<T>> for Fault {
    ghost use Rattle.std.specs.Prelude.{◌≡◌};
    ghost use Rattle.ipmd_settings.specs.declared.fault.Fault.TheVariants.{OutOfMemory};

    ghost from_gives = { λ _ e. e ≡ OutOfMemory };

    fn from(_e: AllocFailed<T>) -> Fault {
        Fault::OutOfMemory
    }
}
