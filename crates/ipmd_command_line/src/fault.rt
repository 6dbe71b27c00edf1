//! Why a command line asks for nothing.
use std::alloc::AllocError;
use thiserror::Error;

/// Why a command line asks for nothing.
#[derive(Debug, Drop, Error)]
pub enum Fault {
    /// It asks for nothing that there is; the text is the parser's, with its line feeds.
    #[error("{0}")]
    Refused(clap::Error),
    /// Want of memory.
    #[error("out of memory")]
    OutOfMemory,
}

impl From<AllocError> for Fault {
    ghost use Rattle.std.specs.Prelude.{◌≡◌};
    ghost use Rattle.ipmd_command_line.specs.declared.fault.Fault.TheVariants.{OutOfMemory};

    ghost from_gives = { λ _ e. e ≡ OutOfMemory };

    fn from(_e: AllocError) -> Fault {
        Fault::OutOfMemory
    }
}

impl From<clap::Error> for Fault {
    ghost use Rattle.std.specs.Prelude.{◌≡◌, ◌≢◌, ◌⊎◌};
    ghost use Rattle.clap.specs.Values.{kind_of};
    ghost use Rattle.clap.specs.declared.error.kind.ErrorKind.TheVariants as clap_error;
    ghost use Rattle.ipmd_command_line.specs.declared.fault.Fault.TheVariants.{Refused, OutOfMemory};

    ghost from_gives = { λ x e. ((kind_of x ≡ clap_error.OutOfMemory) × (e ≡ OutOfMemory))
        ⊎ ((kind_of x ≢ clap_error.OutOfMemory) × (e ≡ Refused x)) };

    fn from(error: clap::Error) -> Fault {
        match error.kind() {
            clap::error::ErrorKind::OutOfMemory => Fault::OutOfMemory,
            _ => Fault::Refused(error),
        }
    }
}
