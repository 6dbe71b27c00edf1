//! An audit whose lines are made and written by a thread of its own, so that its caller works on meanwhile.
//!
//! - `audit_behind`: [`AuditBehind`], to where the audit goes.
//! - `state`: where the device is: here, with its thread, or back from one that stopped.
//! - `thread`: what the thread does, and what it promises.
//!
//! Entries are gathered to lists of a thousand, which go through a ring (`rtrb`) of a few lists: so a caller that is faster than
//! the device waits. Lines leave when that many are there, or by a flush.
//!
//! Proved: what it holds (`contents`) is what the device held, and behind it the lines of all entries that it took, each once and in
//! order; a flush keeps it, and so does a failure, where what the device did not take counts too. It has failed (`has_failed`) where
//! the device did, or memory for lines ran out in the thread. That the thread is there at the same time, that it ends, and that
//! nothing is left to be written after a flush is shown by tests alone.
#![tactic(auto)]

mod audit_behind;
mod state;
mod thread;

pub use audit_behind::AuditBehind;
