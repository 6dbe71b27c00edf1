//! Why a connection is served no more, for exporters, collectors and administrators alike.

use ipfix_reader::{Fault as IntakeFault, FramingFault};
use mediator_state::Fault as MediatorFault;
use std::alloc::AllocError;
use std::error::Error;
use std::fmt::{self, Display, Formatter, Write};

/// Why a connection is served no more. Its text is its name.
#[derive(Clone, Copy, Debug, PartialEq, Eq)]
pub enum Fault {
    /// The reader failed.
    Read,
    /// The writer failed, when `sent` octets in all had been written.
    Write { sent: u64 },
    /// What was read is no stream of messages, or ends inside a message or inside a command (`CutOff`).
    Framing(FramingFault),
    /// As many reads were made as are allowed, and the end was not read.
    Turns,
    /// The Data Sets of a message may have more than [`VALUES_AN_OCTET`](prepared_message::VALUES_AN_OCTET) values for each of its
    /// octets: it isn't offered.
    TooWide,
    /// More records of a message count in aggregates than [`MOST_COUNTS`](prepared_message::MOST_COUNTS), added up over all
    /// subscriptions: it isn't offered.
    TooManyCounts,
    /// The mediator refused a call; or memory ran out (`OutOfMemory`, wherever it did); or the octets that were sent can't
    /// be counted any further (`HandedFull`).
    Mediator(MediatorFault),
}

impl Error for Fault {}

impl Display for Fault {
    ghost use Rattle.std.specs.Prelude.{Option, Some};
    ghost use Rattle.mediator_connections.specs.FaultTexts.{text_of_serve};

    ghost output = { λ fault. Some (text_of_serve fault) };

    fn fmt<W: Write>(&self, f: &mut Formatter<W>) -> fmt::Result {
        f.write_str(match self {
            Fault::Read => "Read",
            Fault::Write { .. } => "Write",
            Fault::Framing(_) => "Framing",
            Fault::Turns => "Turns",
            Fault::TooWide => "TooWide",
            Fault::TooManyCounts => "TooManyCounts",
            Fault::Mediator(_) => "Mediator",
        })
    }
}

impl From<MediatorFault> for Fault {
    ghost use Rattle.std.specs.Prelude.{◌≡◌};
    ghost use Rattle.mediator_connections.specs.declared.fault.Fault.TheVariants.{Mediator};

    ghost from_gives = { λ f e. e ≡ Mediator f };

    fn from(fault: MediatorFault) -> Fault {
        Fault::Mediator(fault)
    }
}

impl From<AllocError> for Fault {
    ghost use Rattle.std.specs.Prelude.{◌≡◌};
    ghost use Rattle.mediator_connections.specs.Faults.{out_of_memory};

    ghost from_gives = { λ _ e. e ≡ out_of_memory };

    fn from(_e: AllocError) -> Fault {
        Fault::Mediator(MediatorFault::OutOfMemory)
    }
}

impl From<IntakeFault> for Fault {
    ghost use Rattle.std.specs.Prelude.{◌≡◌};
    ghost use Rattle.mediator_connections.specs.Faults.{intake_refusal};

    ghost from_gives = { λ f e. e ≡ intake_refusal f };

    fn from(fault: IntakeFault) -> Fault {
        match fault {
            IntakeFault::Read => Fault::Read,
            IntakeFault::Framing(why) => Fault::Framing(why),
            IntakeFault::Turns => Fault::Turns,
            IntakeFault::OutOfMemory => Fault::Mediator(MediatorFault::OutOfMemory),
        }
    }
}
