//! Messages that are read outside their session: against a snapshot of its templates, and taken in later.
//!
//! It reads no template and changes none: a message that has a set of templates is refused, and goes to the session itself.
//! Where the snapshot has terms on which records are shared, it judges the records too; what it judged changes no answer.
//!
//! - [`snapshot`]: `Snapshot`, the templates of a session as they stood, and terms.
//! - [`prepared`]: `Prepared`, a message that was read against a snapshot: `prepare`; `apply_to` and `reading_in` for the
//!   session that takes it in; `take_judgement`, what was judged.
//! - [`ahead`]: `JudgedAhead`, what was judged of a message that its session reads itself, since it brings templates.
//! - [`fault`]: `Fault`, why a message is not prepared.
//! - [`width`]: how many values the Data Sets of a message may have: `Snapshot::is_too_wide`, and `VALUES_AN_OCTET`.
//! - [`counting`]: how many of its records may count in aggregates: `counts_too_many` of `Prepared` and `JudgedAhead`, and
//!   `MOST_COUNTS`.
//! - `found`: what is found in a message by the snapshot's templates.
//! - `sets`: whether a message has a set of templates.
//! - `used`: the templates that a message used.
//!
//! Proved: `prepare` answers the records and skips that the message holds after the messages that the snapshot stands for, or
//! which fault it has (`gives`). Its type keeps that the message brings no template, and holds these contents wherever the
//! templates that it used are in force. `apply_to` answers what `Session::apply` answers to the message (`means`), and the
//! session then stands for it too (`stands`); `reading_in` gives what `Session::read` gives (`reading`). Both answer `None`
//! only where an ID of the message has another template, or none, in the session (`stale`). Nothing has changed then
//! (`none`), nor for want of memory (`err`).
//! What `take_judgement` gives are the shares of the message's records by the terms of which it speaks (`judgement`). What
//! `JudgedAhead::judgement_of` gives are the shares of those records that it is asked about. `Snapshot::is_too_wide` is exact.
//! Where `counts_too_many` is true, more than `MOST_COUNTS` records of the message may count in aggregates, by some
//! templates and on some terms.
#![tactic(auto)]

pub mod ahead;
pub mod counting;
pub mod fault;
mod found;
pub mod prepared;
mod sets;
pub mod snapshot;
mod used;
pub mod width;

pub use ahead::JudgedAhead;
pub use counting::MOST_COUNTS;
pub use fault::Fault;
pub use prepared::Prepared;
pub use snapshot::Snapshot;
pub use width::VALUES_AN_OCTET;
