//! The library of `ipmd offline`: [`offline`] reads the messages of one exporter, and writes those of one subscriber, with the
//! audit of what was kept back. It stands on the state of a mediator (`mediator_state`), and decides nothing that the
//! state doesn't.
//!
//! - `engine`: [`offline`].
//! - `job`: [`OfflineJob`], [`OfflineReport`], and [`Fault`].
//! - `run`: the state of a mediator with one session and one subscription; `handling`, `delivery` and `recording` say
//!   what is done with a message. What is due for several is gathered, to be written in one piece, where no line of the
//!   audit stands between them.
//! - [`laws`]: over the definitions that the contract of [`offline`] cites, with no code behind them:
//!   [`due_is_built`], that what is due are the messages that are built one after another,
//!   [`accepted_messages_are_the_history`], that the history of a run has its messages alone, and [`nothing_closes`], that
//!   what counts in aggregates is disclosed to nobody.
//!
//! Proved of `offline`, over any `Source` and `Sink` that have not failed yet. Where it answers `Ok` (`filters`): the
//! octets read are whole messages, each was accepted after those before it; what was written are message by message
//! those built for the records that the policy discloses of them, and they mean exactly these records to whoever
//! reads them by RFC 7011; the audit, where the job asks for it, has exactly the lines of what was kept back, and else
//! nothing; and the report counts messages, records and records written.
//!
//! Where it answers a fault (`stops`), this stands only where its cause does (a device that has failed, a stream that
//! is faulty or cut off, reads used up, a job or a message refused, a subscriber cut), and what was written is all
//! that is due for the messages before the one in hand: after Write exactly the first `sent` octets of what is due,
//! for want of memory at most a front of the message in hand more, after Cut the audit's line of the cut as well. No
//! refusal stands before an earlier one: of a job the policy is judged, then room for it, the name, and room for the
//! rest; of a message its octets, then the journal's room, and then the audit's, whose room is told. A device that has
//! failed is the one that the fault names (`sound`, `fails`). However a run ends, it has read no more octets than
//! `turns` reads of 65,536 give.
//!
//! Where it answers `Ok`, or a fault after it began to read, the job was one to accept: its text spells a policy, its
//! name is one, and the journal has room for both. The laws are those above.
#![tactic(auto)]

mod audit_sink;
mod delivery;
mod engine;
mod handling;
mod job;
pub mod laws;
mod recording;
mod run;

pub use audit_sink::AuditSink;
pub use engine::offline;
pub use ipfix_reader::FramingFault;
pub use job::{Fault, OfflineJob, OfflineReport};
pub use laws::{accepted_messages_are_the_history, due_is_built, nothing_closes};
pub use octet_io::{Device, Failed, Sink, Source};
pub use recording::audit_lines;
