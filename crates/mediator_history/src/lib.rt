//! What a mediator's history says: definitions and their laws alone. A history is a list of `event_journal`'s entries; the
//! place of an entry, counted from 0, is its position.
//!
//! - `specs/Sessions`: which sessions are open, and the messages of a session.
//! - `specs/Subscriptions`: the policy in force, and who is subscribed, under which name, and not cut.
//! - `specs/LastEntries`: the same by the last entry that decides it.
//! - `specs/Accepted`: the records that were accepted.
//! - `specs/Counting`: the clock, and which records count in aggregates for a subscription.
//! - `specs/Disclosed`: what is disclosed to a subscription.
//! - `specs/Auditing`: what the audit names.
//! - `specs/Cuts`: whom an entry cuts, and a history with cuts behind it.
//! - `specs/Numbers`: numbers in a list.
//! - [`laws`]: the policy in force is that of the last edit whose text is a policy, or one without rules
//!   (`last_edit_is_in_force`); a subscription has the name under which it began last (`last_subscription_names`), is
//!   live exactly where it began and after that did not end (`live_since_subscribed`), and is served exactly where it
//!   began and after that neither ended nor was cut (`served_since_subscribed`), so that a cut ends what it gets
//!   (`cut_ends_serving`); a session is open exactly where it was opened and after that not closed
//!   (`open_since_opened`); one entry more adds records, what is disclosed and what the audit names behind those of the
//!   entries before (`one_entry_more`).
//!
//! Proved: the laws. The definitions are for several sessions and subscriptions; there is no other code.
#![tactic(auto)]

pub mod laws;

pub use laws::{
    cut_ends_serving, last_edit_is_in_force, last_subscription_names, live_since_subscribed,
    one_entry_more, open_since_opened, served_since_subscribed,
};
