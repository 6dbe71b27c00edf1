//! What `offline` is asked for, and what it answers: a report or a fault.

use ipfix_reader::{Fault as IntakeFault, FramingFault};
use mediator_state::Fault as MediatorFault;
use std::error::Error;
use std::fmt::{self, Display, Formatter, Write};

/// One stream to be filtered for one subscriber.
#[derive(Clone, Copy, Debug)]
pub struct OfflineJob<'a> {
    /// The text of the policy.
    pub policy: &'a str,
    /// The subscriber's name.
    pub name: &'a str,
    /// The Export Time of each message that is written, in seconds since 1970 (RFC 7011, section 3.1).
    pub now: u32,
    /// How long a written message may be, in octets; one with a single template or record may be longer.
    pub target: u16,
    /// The most reads.
    pub turns: u64,
    /// Whether the audit is asked for: else no line of it is made, and its writer gets nothing.
    pub audit: bool,
}

/// What was done with a whole stream.
#[derive(Clone, Copy, Debug, PartialEq, Eq)]
pub struct OfflineReport {
    /// The messages that were read.
    pub messages: u64,
    /// The records that were accepted.
    pub records: u64,
    /// The records that were written.
    pub disclosed: u64,
}

/// Why a stream was not read to its end. Its text is its name.
#[derive(Clone, Copy, Debug, PartialEq, Eq)]
pub enum Fault {
    /// The reader failed.
    Read,
    /// The writer failed, when `sent` octets of the whole run had been written.
    Write { sent: u64 },
    /// What was read is no stream of messages, or ends inside a message.
    Framing(FramingFault),
    /// As many reads were made as the job allows, and the end was not read.
    Turns,
    /// The mediator refused the job, or a message; or memory ran out.
    Mediator(MediatorFault),
    /// The subscription was cut: a message would have given it records with more templates than it may use.
    Cut,
    /// The writer of the audit failed. A front of the lines that were due was written.
    AuditWrite,
}

impl Error for Fault {}

impl Display for Fault {
    ghost use Rattle.std.specs.Prelude.{Option, Some};
    ghost use Rattle.mediator_offline.specs.FaultTexts.{text_of_offline};

    ghost output = { λ fault. Some (text_of_offline fault) };

    fn fmt<W: Write>(&self, f: &mut Formatter<W>) -> fmt::Result {
        f.write_str(match self {
            Fault::Read => "Read",
            Fault::Write { .. } => "Write",
            Fault::Framing(_) => "Framing",
            Fault::Turns => "Turns",
            Fault::Mediator(_) => "Mediator",
            Fault::Cut => "Cut",
            Fault::AuditWrite => "AuditWrite",
        })
    }
}

impl From<MediatorFault> for Fault {
    ghost use Rattle.std.specs.Prelude.{◌≡◌};
    ghost use Rattle.mediator_offline.specs.declared.job.Fault.TheVariants.{Mediator};

    ghost from_gives = { λ f e. e ≡ Mediator f };

    fn from(fault: MediatorFault) -> Fault {
        Fault::Mediator(fault)
    }
}

impl From<IntakeFault> for Fault {
    ghost use Rattle.std.specs.Prelude.{◌≡◌};
    ghost use Rattle.mediator_offline.specs.Faults.{reading_fault};

    ghost from_gives = { λ f e. e ≡ reading_fault f };

    fn from(fault: IntakeFault) -> Fault {
        match fault {
            IntakeFault::Read => Fault::Read,
            IntakeFault::Framing(why) => Fault::Framing(why),
            IntakeFault::Turns => Fault::Turns,
            IntakeFault::OutOfMemory => Fault::Mediator(MediatorFault::OutOfMemory),
        }
    }
}
