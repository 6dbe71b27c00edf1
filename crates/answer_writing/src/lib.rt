//! Writing an answer to a sink, with its octets counted, without asking for memory meanwhile. The answer that has the
//! drained entries of the audit may be longer than any memory: it goes through a buffer of a fixed size, which is made
//! before, a piece at a time. So once entries were drained no want of memory can keep them back.
//!
//! - `buffer`: [`AnswerBuffer`], in which octets wait until they are written.
//! - `pieces`: the pieces of the lines of entries.
//! - `writing`: [`write_octets`], [`write_both`], and [`write_drained`], the answer that has entries, with
//!   [`drained_length`], how long that is. [`Stopped`] says why not all was written.
//!
//! Proved: `write_octets`, `write_both` and `write_drained` write exactly what is due and count its octets (`ok`); or
//! the sink failed, and exactly the front that is told was written; or the octets can't be counted in 64 bits, and none
//! was written (`err`). None of them has another error, and none asks for memory. What is put into a buffer waits
//! behind what waited there (`added`).
#![tactic(auto)]

mod buffer;
mod pieces;
mod writing;

pub use buffer::AnswerBuffer;
pub use writing::{Stopped, drained_length, write_both, write_drained, write_octets};
