//! The state of a mediator: what it keeps beside the history of what it accepted, for any number of sessions and
//! subscriptions.
//!
//! - `state`: [`State`], with its calls; it is generic over what keeps the history ([`event_journal::Chronicle`]) and
//!   over what keeps the entries of its audit ([`disclosure_audit::AuditQueue`]), or counts them.
//! - `engine`: what is kept beside the history; `plan`: what a message would do, before anything is changed, and `closing`:
//!   what an advance of the clock would do.
//! - `fault`: [`Fault`], why a call is refused.
//! - `receipt`: [`Receipt`] and [`Status`], what calls answer.
//!
//! Proved, for each history that the state stands for (`StandsFor`: what keeps the history tells it; each open session
//! stands for its messages, each live subscription's stream in what is disclosed to it, at what it handed out; the
//! audit holds the history's audit list without what was drained, or its number; running groups are those of the
//! records that count and that the clock has not come to; policy, clock, names, numbers and who is served are the
//! history's): an accepted `open`, `close`, `edit`, `subscribe`, `unsubscribe`, `receive` or `advance` makes it stand
//! for that history with just the call's entry behind it, and before a message or an advance just the cuts that it
//! makes (`ok`), and there was room for them; its answer is the history's value: the next number from 1 on, the number
//! of edits, the receipt. `pull` answers the message built at the subscription's place and moves it past that message,
//! as `pull_to` does into a list, `drain_audit` the oldest entries, `status` what waits and what was handed out; none
//! of them changes the history. A refused call leaves all of that (`same`), and its fault is the first cause that
//! stands (`err`): its own, then the journal's, then the audit's, whose need and room are told; want of memory is told
//! only where none stands that the call looks for before it asks for memory. An accepted message or advance found room
//! in the audit (`AuditHolds`).
#![tactic(auto)]

mod closing;
mod engine;
mod fault;
pub mod laws;
mod plan;
mod receipt;
mod state;

pub use fault::Fault;
pub use laws::cuts_ascend;
pub use receipt::{Receipt, Status};
pub use state::{DEFAULT_AUDIT, DEFAULT_QUEUE, State};
