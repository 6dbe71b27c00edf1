//! What `ipmd verify` does for one journal's file: it is read entry by entry, its history is verified as it comes, and what it
//! discloses is written.
//!
//! - `verifying`: [`verify`], of a file, and [`verify_input`], of a stream.
//! - `reading`: the history of a file, entry by entry.
//! - `telling`: what is written of a legal history.
//! - `progress`: [`Progress`], who is told meanwhile how far the file was read, and [`OnTerminal`].
//!
//! Proved of `verify_input`: it is done only where the stream's octets are a journal's file whose history is legal, and then the
//! output got exactly the text of that history: a line for each subscription, with the number of records that the definitions
//! say are disclosed to it, and unless it is quiet the lines of the audit's list (`ok`). A fault of the file is the first that
//! the whole file has, as `journal_files::decode` names it; `History` names the first entry that may not stand where it does in
//! the history of a file that has no fault; and at each of these nothing was written. Where the output failed, a front of the
//! text was written (`err`). `verify` is that for the content of a file, of which contracts can say nothing.
//!
//! Shown by tests alone, those of the process: what progress writes, and that it is only told where it is asked for.
#![tactic(auto)]

mod progress;
mod reading;
mod telling;
mod verifying;

pub use progress::{OnTerminal, Progress};
pub use reading::{fault_of, refusal};
pub use verifying::{verify, verify_input};
