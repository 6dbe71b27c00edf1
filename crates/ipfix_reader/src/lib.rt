//! Reading a stream of IPFIX messages from a source, piece by piece, as TCP or a file gives it (RFC 7011, sections 3.1
//! and 10.4). It knows no session: what the messages mean is said above.
//!
//! - `intake`: [`Intake`], which hands out the messages of a source.
//! - `fault`: [`Fault`], why nothing more is handed out, with [`FramingFault`].
//!
//! Proved, over any `Source`: the octets that are read are framed into the messages that are handed out, and what is
//! pending (`Intake::next`, `ok`); the answer None stands only at the end, with nothing pending; each fault stands only
//! where its cause does, and a fault of the stream comes after all messages before it (`err`); only a failed read leaves
//! a failed reader (`sound`, `fails`). Each call makes one read at most, of at most 65,536 octets, or of an intake that
//! widens 262,144. That this one begins with 65,536, and that its room grows, no clause says.
#![tactic(auto)]

mod fault;
mod intake;

pub use fault::{Fault, FramingFault};
pub use intake::Intake;
