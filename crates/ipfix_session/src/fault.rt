//! Why a message is refused.

use ipfix_message::Fault as DecodeError;
use std::alloc::{AllocError, AllocFailed};
use thiserror::Error;

/// Why a session refuses a message: the first fault in reading order.
#[derive(Clone, Copy, Debug, PartialEq, Eq, Error)]
pub enum Fault {
    /// The octets are no message, for this reason.
    #[error("Malformed")]
    Malformed(DecodeError),
    /// A data record goes past its set.
    #[error("RecordOverrun")]
    RecordOverrun,
    /// Want of memory: it says nothing of the message.
    #[error("OutOfMemory")]
    OutOfMemory,
}

impl From<AllocError> for Fault {
    ghost use Rattle.std.specs.Prelude.{◌≡◌};
    ghost use Rattle.ipfix_session.specs.declared.fault.Fault.TheVariants.{OutOfMemory};

    ghost from_gives = { λ _ e. e ≡ OutOfMemory };

    fn from(_e: AllocError) -> Fault {
        Fault::OutOfMemory
    }
}

impl<T: Drop> From<AllocFailed<T>> for Fault {
    ghost use Rattle.std.specs.Prelude.{◌≡◌};
    ghost use Rattle.ipfix_session.specs.declared.fault.Fault.TheVariants.{OutOfMemory};

    ghost from_gives = { λ _ e. e ≡ OutOfMemory };

    fn from(_e: AllocFailed<T>) -> Fault {
        Fault::OutOfMemory
    }
}

impl From<DecodeError> for Fault {
    ghost use Rattle.std.specs.Prelude.{◌≡◌};
    ghost use Rattle.ipfix_session.specs.Answers.{read_fault};

    ghost from_gives = { λ d e. e ≡ read_fault d };

    fn from(fault: DecodeError) -> Fault {
        match fault {
            DecodeError::OutOfMemory => Fault::OutOfMemory,
            DecodeError::ShortHeader
            | DecodeError::BadVersion
            | DecodeError::BadLength
            | DecodeError::BadSetLength
            | DecodeError::TemplateOverrun => Fault::Malformed(fault),
        }
    }
}
