//! Readers and writers that take or give less than they are asked, or fail, for the tests of what stands
//! on std's `Read` and `Write`.
//!
//! - `schedule`: [`Schedule`], how much a call does, and which call fails.
//! - `narrow`: [`Narrow`], a writer.
//! - `sparing`: [`Sparing`], a reader.
//!
//! Proved: the writer keeps exactly the octets that it says it took (`bytes`), and a flush keeps them (`unchanged`);
//! the reader gives the front of what is left, and gives none only at the end. Each fails at the call that it is told
//! to, with the error that it is told (`due`), and at each other call takes or gives as many octets as it is told to,
//! or fewer where there are fewer or the buffer is smaller (`takes`, `gives`). A write into room that is there can't
//! fail otherwise (`no_memory`).
#![tactic(auto)]

mod narrow;
mod schedule;
mod sparing;

pub use narrow::Narrow;
pub use schedule::Schedule;
pub use sparing::Sparing;
