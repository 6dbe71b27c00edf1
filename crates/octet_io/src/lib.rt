//! Where octets come from and go to. An engine that reads and writes is generic over [`Source`] and
//! [`Sink`], which tell it their octets and whether they have failed, so that its contract can say what
//! was read and written up to a failure.
//!
//! - `source`: [`Source`], from which octets are read.
//! - `sink`: [`Sink`], to which octets are written; [`write_all`] writes all of a slice, and
//!   [`WriteStopped`] says how far it came.
//! - `failed`: [`Failed`], the one answer of a device that has failed.
//! - `device`: [`Device`], both over a reader or writer of std.
//!
//! Proved: a `Device` over a std reader or writer tells the octets that it read or wrote (`octets`), and whether it
//! has failed: only an answer `Failed` makes it so (`failed`), and a write that takes nothing of a slice that isn't
//! empty is one (`some`). `write_all` writes a whole slice (`ok`), or says exactly which front of it was written
//! before the sink failed (`err`). A flush keeps what is held. Where `write_fmt` answers Ok, the whole text was
//! written. When a device may fail no clause can say, nor whether a flush was made: std's readers and writers tell
//! contracts nothing of either.
#![tactic(auto)]

mod device;
mod failed;
mod sink;
mod source;

pub use device::Device;
pub use failed::Failed;
pub use sink::{Sink, WriteStopped, write_all};
pub use source::Source;
