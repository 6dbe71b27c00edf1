//! The lines of the admin connection: what a line asks for, and how the lines that answer it are written. It makes no call and
//! reads no connection: its caller cuts the lines at their line feeds, and takes the octets of a policy that stand behind an
//! `edit`.
//!
//! - `command`: [`Command`] with [`Topic`], and [`read_command`], with [`LONGEST_LINE`], [`LONGEST_POLICY`] and
//!   [`MOST_AUDIT_ENTRIES`].
//! - `answer`: [`Answer`] and [`write_answer`].
//! - `argument`: the word behind the name of a command.
//! - `laws`: [`one_meaning`], proved over the definitions.
//!
//! Proved: `read_command` answers a command exactly where the line is one by the grammar, and that one (`found`, `only`,
//! `exact`); memory is wanted only for the name behind `subscribe` (`memory`). `write_answer` writes the text that the definition
//! gives of an answer, with its line feeds, and counts its octets (`ok`); or the sink failed, and exactly the front that is told
//! was written; or the octets can't be counted in 64 bits, and none was written (`err`). No want of memory keeps an answer back:
//! only in place of a refusal for another reason it may write one for want of memory. Law: `one_meaning` (no line asks for two
//! things).
#![tactic(auto)]

mod answer;
mod argument;
mod command;
mod laws;

pub use answer::{Answer, write_answer};
pub use command::{Command, LONGEST_LINE, LONGEST_POLICY, MOST_AUDIT_ENTRIES, Topic, read_command};
pub use laws::one_meaning;
