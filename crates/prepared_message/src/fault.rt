//! Why a message is not prepared.

use ipfix_message::Fault as DecodeError;
use ipfix_session::Fault as ReadError;
use std::alloc::{AllocError, AllocFailed};
use thiserror::Error;

/// Why a message is not prepared. Where the octets are a message, a set of templates is named before any other fault.
#[derive(Clone, Copy, Debug, PartialEq, Eq, Error)]
pub enum Fault {
    /// The message has a Template Set or an Options Template Set: a set with the ID 2 or 3 (RFC 7011, section 3.3.2).
    #[error("HasTemplates")]
    HasTemplates,
    /// The octets are no message, or a data record goes past its set.
    #[error("Malformed")]
    Malformed,
    /// Want of memory. It says nothing of the message.
    #[error("OutOfMemory")]
    OutOfMemory,
}

impl From<AllocError> for Fault {
    ghost use Rattle.std.specs.Prelude.{◌≡◌};
    ghost use Rattle.prepared_message.specs.declared.fault.Fault.TheVariants.{OutOfMemory};

    ghost from_gives = { λ _ e. e ≡ OutOfMemory };

    fn from(_e: AllocError) -> Fault {
        Fault::OutOfMemory
    }
}

impl<T: Drop> From<AllocFailed<T>> for Fault {
    ghost use Rattle.std.specs.Prelude.{◌≡◌};
    ghost use Rattle.prepared_message.specs.declared.fault.Fault.TheVariants.{OutOfMemory};

    ghost from_gives = { λ _ e. e ≡ OutOfMemory };

    fn from(_e: AllocFailed<T>) -> Fault {
        Fault::OutOfMemory
    }
}

impl From<DecodeError> for Fault {
    ghost use Rattle.std.specs.Prelude.{◌≡◌};
    ghost use Rattle.prepared_message.specs.Faults.{fault_of_decoding};

    ghost from_gives = { λ d e. e ≡ fault_of_decoding d };

    fn from(fault: DecodeError) -> Fault {
        match fault {
            DecodeError::OutOfMemory => Fault::OutOfMemory,
            DecodeError::ShortHeader
            | DecodeError::BadVersion
            | DecodeError::BadLength
            | DecodeError::BadSetLength
            | DecodeError::TemplateOverrun => Fault::Malformed,
        }
    }
}

impl From<ReadError> for Fault {
    ghost use Rattle.std.specs.Prelude.{◌≡◌};
    ghost use Rattle.prepared_message.specs.Faults.{fault_of_reading};

    ghost from_gives = { λ r e. e ≡ fault_of_reading r };

    fn from(fault: ReadError) -> Fault {
        match fault {
            ReadError::OutOfMemory => Fault::OutOfMemory,
            ReadError::Malformed(_) | ReadError::RecordOverrun => Fault::Malformed,
        }
    }
}
