//! What `ipmd explain` does for one journal's file: it says of each record what a subscription saw of it, and which rule decided
//! that, by the policy that was in force there.
//!
//! - `explaining`: [`explain`], of a file, and [`explain_input`], of a stream.
//! - `question`: [`Question`], what is asked.
//! - `reading`: the history of a file, entry by entry.
//! - `explainer`: what is kept of the entries so far, and what is said of the next one.
//! - `wording`: what is said of a record; `flow_words`: where from and to its flow goes.
//!
//! Proved of `explain_input`: it is done only where the stream's octets are a journal's file whose history is legal and has what is
//! asked for, and then the output got exactly the lines that the definitions give of that history (`ok`): of each record, while
//! the subscription is served, what the rules of the policy in force say of it and of each field, by the name and the clock there.
//! A fault of the file, or of its history, is the one that `ipmd_verify` names, and `Absent` names what the history doesn't
//! have; a front of the lines may have been written (`err`). `explain` is that for the content of a file, of which contracts can
//! say nothing.
//!
//! Shown by tests alone, those of the process: that a file is verified before anything is written of it.
#![tactic(auto)]

mod explainer;
mod explaining;
mod flow_words;
mod question;
mod reading;
mod wording;

pub use explaining::{explain, explain_input};
pub use question::Question;
