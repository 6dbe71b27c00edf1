//! Why octets are no message, and what ends a stream of messages.

use std::alloc::{AllocError, AllocFailed};
use thiserror::Error;

/// Why octets are no message. Where several faults stand, the first in reading order is named. Each is shown as its
/// name.
///
/// A [`Framer`](crate::Framer) judges the octets of a stream where a message should begin, by the first 4 of a header. It
/// answers `BadVersion` or `BadLength` alone, and for want of memory `OutOfMemory`.
#[derive(Clone, Copy, Debug, PartialEq, Eq, Error)]
pub enum Fault {
    /// Fewer octets than a message header has.
    #[error("ShortHeader")]
    ShortHeader,
    /// The version is not 10 (RFC 7011, section 3.1).
    #[error("BadVersion")]
    BadVersion,
    /// The Length is not the number of octets. In a stream: it is less than the 16 octets of a header.
    #[error("BadLength")]
    BadLength,
    /// A set header is cut off, or a set's length is under 4 or goes past the message.
    #[error("BadSetLength")]
    BadSetLength,
    /// A template record goes past its set.
    #[error("TemplateOverrun")]
    TemplateOverrun,
    /// Want of memory: it says nothing of the octets. The piece that a framer was fed is no part of the stream.
    #[error("OutOfMemory")]
    OutOfMemory,
}

impl From<AllocError> for Fault {
    ghost use Rattle.std.specs.Prelude.{◌≡◌};
    ghost use Rattle.ipfix_message.specs.declared.fault.Fault.TheVariants.{OutOfMemory};

    ghost from_gives = { λ _ e. e ≡ OutOfMemory };

    fn from(_e: AllocError) -> Fault {
        Fault::OutOfMemory
    }
}

impl<T: Drop> From<AllocFailed<T>> for Fault {
    ghost use Rattle.std.specs.Prelude.{◌≡◌};
    ghost use Rattle.ipfix_message.specs.declared.fault.Fault.TheVariants.{OutOfMemory};

    ghost from_gives = { λ _ e. e ≡ OutOfMemory };

    fn from(_e: AllocFailed<T>) -> Fault {
        Fault::OutOfMemory
    }
}
