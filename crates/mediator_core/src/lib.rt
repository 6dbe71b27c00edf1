//! The mediator as a whole: IPFIX messages of any number of exporters' sessions in, and for each subscription out again what a
//! policy discloses to it, records and closed aggregates, with an audit of what was kept back.
//!
//! - [`Mediator`] with its calls, and [`Call`] and [`Reply`], calls and answers as values, are `mediator_calls`'.
//! - `transcript`: [`run`], a list of calls on a new mediator, and its [`Transcript`].
//! - `laws`: what never matters to what a subscription is disclosed, and that what is full is told.
//!
//! Proved of [`run`], for every list of calls and any limits that are allowed: each reply is that of its call, one after
//! another from a mediator before any call (`steps`); the history's entries are those of the accepted calls, in order,
//! beside the cuts (`history`); what a live subscription was handed, with the messages of any further pulls up to one that
//! gives none, means by RFC 7011 exactly what the history discloses to it, the aggregates that advances of the clock closed
//! among it, and each Sequence Number counts the records before it (`disclosed`); of one that ended, a front of that
//! (`front`); the audit entries that were drained, with those that wait, are the audit list (`audited`); a subscription's
//! answers are built from its pulls, each with what was disclosed to it by then (`secret`). What is disclosed stays the same
//! where rules that name others are left out of edits, entries of others out of the history, or where values that are
//! denied change; and no call is accepted for which the audit has no room (`laws`).
#![tactic(auto)]

mod laws;
mod transcript;

pub use laws::{
    denied_values_never_matter, entries_of_others_never_matter, full_is_told,
    rules_of_others_never_matter,
};
pub use mediator_calls::{
    Call, Fault, Finished, Limits, Mediator, Receipt, Reply, SessionId, Status, SubId,
};
pub use transcript::{Transcript, run};
