//! Lists of calls on a mediator as text: what a list asks for, and the answer to each call. It makes no call.
//!
//! - `call_list`: [`CallList`] and [`read_call_list`].
//! - `answer`: [`answer_text`], the lines of a reply, and [`answers_text`], those of replies one after another; of their parts
//!   [`refusal_text`], [`drained_text`] and [`cut_word`].
//! - `line_ends`: [`with_line_ends`], a policy that stands in one line.
//! - `fault`: [`Fault`], why a text is no list of calls.
//! - `words`: the words of a line, and [`read_number`], the number that a word writes.
//! - `verb`, `line`: what a line's words ask for.
//!
//! Proved: `read_call_list` is `Ok` exactly on the texts that are lists of calls, with their limits and calls, and else
//! answers the number of the first line that is none (`exact`). `answer_text`, `answers_text` and their parts are the texts
//! that the definitions give of replies, and `read_number` is the number that they give of a word. Want of memory says nothing.
#![tactic(auto)]

mod answer;
mod call_list;
mod fault;
mod line;
mod line_ends;
mod verb;
mod words;

pub use answer::{answer_text, answers_text, cut_word, drained_text, refusal_text};
pub use call_list::{CallList, read_call_list};
pub use fault::Fault;
pub use line_ends::with_line_ends;
pub use words::read_number;
