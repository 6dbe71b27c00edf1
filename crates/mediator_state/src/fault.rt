//! Why a mediator refuses a call.

use ipfix_session::Fault as ReadError;
use policy_text::Fault as PolicyFault;
use std::alloc::AllocError;
use std::error::Error;
use std::fmt::{self, Display, Formatter, Write};

/// Why a call is refused, or why a mediator, a run or a handle isn't made. Of several reasons the first of this list is
/// told, but for those that belong to other calls. A fault's text is its name. A refused call has changed nothing.
#[derive(Clone, Copy, Debug, PartialEq, Eq)]
pub enum Fault {
    /// A limit is out of its range. Only making a mediator (`Mediator::new`), or a run of calls on one (`run`), answers
    /// it.
    BadLimits,
    /// No session with this number is open.
    UnknownSession,
    /// The message's number isn't `expected`, which is how many messages the session had.
    OutOfTurn { expected: u64 },
    /// The octets are no message that the session can have (RFC 7011), for this reason.
    Malformed(ReadError),
    /// A prepared message has a Data Set whose template in the session isn't the one by which it was prepared. It can
    /// be prepared anew.
    Stale,
    /// The text is no policy, for this reason.
    Policy(PolicyFault),
    /// The text is no name that a subscriber may have.
    BadName,
    /// The live subscription with the number `sub` has this name.
    AlreadySubscribed { sub: u64 },
    /// No subscription with this number is live.
    UnknownSub,
    /// As many handles of this kind were made as there may be. Only a shared mediator answers it, where it is asked for
    /// a handle.
    NoHandle,
    /// The count of the records that were handed out, with those that wait, would come to 2^64. Only a shared mediator
    /// answers it, to a pull.
    HandedFull,
    /// The clock stands later already: at `last`, in milliseconds since 1970.
    ClockBack { last: u64 },
    /// The journal has no room for the entries that the call would add.
    JournalFull,
    /// The call would add `need` entries to the audit, which has room for `room`.
    AuditFull { need: u64, room: u32 },
    /// Want of memory. It says nothing of the call.
    OutOfMemory,
}

impl Error for Fault {}

impl Display for Fault {
    ghost use Rattle.std.specs.Prelude.{Option, Some};
    ghost use Rattle.mediator_state.specs.FaultTexts.{text_of_fault};

    ghost output = { λ fault. Some (text_of_fault fault) };

    fn fmt<W: Write>(&self, f: &mut Formatter<W>) -> fmt::Result {
        f.write_str(match self {
            Fault::BadLimits => "BadLimits",
            Fault::UnknownSession => "UnknownSession",
            Fault::OutOfTurn { .. } => "OutOfTurn",
            Fault::Malformed(_) => "Malformed",
            Fault::Stale => "Stale",
            Fault::Policy(_) => "Policy",
            Fault::BadName => "BadName",
            Fault::AlreadySubscribed { .. } => "AlreadySubscribed",
            Fault::UnknownSub => "UnknownSub",
            Fault::NoHandle => "NoHandle",
            Fault::HandedFull => "HandedFull",
            Fault::ClockBack { .. } => "ClockBack",
            Fault::JournalFull => "JournalFull",
            Fault::AuditFull { .. } => "AuditFull",
            Fault::OutOfMemory => "OutOfMemory",
        })
    }
}

impl From<AllocError> for Fault {
    ghost use Rattle.std.specs.Prelude.{◌≡◌};
    ghost use Rattle.mediator_state.specs.declared.fault.Fault.TheVariants.{OutOfMemory};

    ghost from_gives = { λ _ e. e ≡ OutOfMemory };

    fn from(_e: AllocError) -> Fault {
        Fault::OutOfMemory
    }
}

impl From<ReadError> for Fault {
    ghost use Rattle.mediator_state.specs.Refusals.{reading_refusal};
    ghost use Rattle.std.specs.Prelude.{◌≡◌};

    ghost from_gives = { λ r e. e ≡ reading_refusal r };

    fn from(fault: ReadError) -> Fault {
        match fault {
            ReadError::OutOfMemory => Fault::OutOfMemory,
            ReadError::Malformed(_) | ReadError::RecordOverrun => Fault::Malformed(fault),
        }
    }
}
