//! Journal files: the octets by which a journal is kept, written and read both ways exactly, in memory or an entry at a
//! time. The format is this project's own; no RFC speaks of it.
//!
//! - `encoding`: [`encode`], the file of a journal, in memory.
//! - `decoding`: [`decode`], the journal that a file says, or the file's first fault.
//! - `writing`: [`write_journal`] and [`JournalWriter`] write a file to a sink.
//! - `reading`: [`JournalReader`] reads a file from a source.
//! - `fault`: [`Fault`], why octets are no journal file, or why no more was read or written, and how far that came.
//! - `laws`: what is written is read back, what is read is written back, and a file is read step by step.
//! - `entry`, `gathering`, `format`: the entry at the front of octets, its octets out of a source, the format's numbers.
//!
//! Proved: `encode` gives the octets of the journal's file. `decode` answers what the reading definition computes, with
//! the file's first fault (`exact`); the octets that it accepts are those by which the journal is written (`same`), and
//! the file of each history within the greatest limits is accepted (`only`). A [`JournalWriter`] and [`write_journal`]
//! write exactly these octets (`written`), and at a fault a front of them (`err`). A [`JournalReader`] hands out an entry
//! exactly by its own octets, which are read as that entry whatever follows, and consumes none past them (`ok`); a fault
//! is the one that the octets consumed show, and a file is cut off only where the source is at its end (`err`). Both keep
//! room for the octets of one entry. Laws: `entry_read_back`, `entry_written_back`, `file_read_back`,
//! `file_written_back`, `file_grows`, `step_by_step`, `fault_stays`.
#![tactic(auto)]

mod decoding;
mod encoding;
mod entry;
mod fault;
mod format;
mod gathering;
mod laws;
mod reading;
mod writing;

pub use decoding::decode;
pub use encoding::encode;
pub use fault::Fault;
pub use laws::{
    entry_read_back, entry_written_back, fault_stays, file_grows, file_read_back,
    file_written_back, step_by_step,
};
pub use reading::JournalReader;
pub use writing::{JournalWriter, write_journal};
