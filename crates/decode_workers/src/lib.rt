//! Threads that prepare messages ahead of the one that offers them.
//!
//! - [`workers`]: `Workers`, which is asked for the messages of one piece and hands them back as they were prepared, in their order.
//! - `helper`: a thread that prepares lists of messages, and its end in the thread that it helps.
//! - `line`: what these two tell each other.
//! - `preparing`: how a list of messages is prepared.
//!
//! The thread that asks is one of the workers: it prepares the first messages itself, and goes on with these while the others are
//! prepared. Lists of messages go to the helpers through rings (`rtrb`), and what was prepared of each comes back through others. What
//! comes back is taken only for the message of which it is, octet by octet: so nothing has to be proved of a helper.
//!
//! Proved: what is handed back for a message is this message, as it was prepared (`Workers::next`). Whether it is prepared at all, that
//! helpers work at the same time, and that they end, is shown by tests alone.
#![tactic(auto)]

mod helper;
mod line;
mod preparing;
pub mod workers;

pub use workers::{MOST_WORKERS, Workers};
