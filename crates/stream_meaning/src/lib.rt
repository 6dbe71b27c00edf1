//! What the messages of a subscriber's stream mean to whoever reads them by RFC 7011: the list of records
//! that the stream was given.
//!
//! - [`laws`]: over the definitions that `subscriber_stream` and `ipfix_session` cite, with no code behind
//!   them: messages that calls get from a new stream, taken as all of a session, bring exactly the records
//!   that were handed out; and what a holder of a stream keeps, so as to say so of its messages.
//! - [`streamable`]: the laws' premise on records, of any records that a caller has.
//!
//! Proved: `messages_mean_the_list`, up to the place reached (`so_far`), where nothing more is to be had (`whole`)
//! and after enough further pulls (`drained`): each record with its template and values, in order, each message with
//! the number of records before it, nothing skipped, no gap. Beside it `pulls_see_what_was_given`,
//! `the_first_are_handed_out`, `answers_mean_the_list`, and `holders_keep`, by which a holder of a `Stream` carries
//! this through its calls. `records_for_proof` tells of any records that they may be streamed.
#![tactic(auto)]

pub mod laws;
pub mod streamable;

pub use laws::{
    answers_mean_the_list, holders_keep, messages_mean_the_list, pulls_see_what_was_given,
    the_first_are_handed_out,
};
pub use streamable::{records_for_proof, run_for_proof};
