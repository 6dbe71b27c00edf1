//! What `ipmd` does for one stream, one policy or one text, over streams and files that it is handed; and for each of its
//! commands why a run ends without having done what was asked, with the text and the exit status.
//!
//! - `filtering`: [`filter`], `ipmd offline`.
//! - `check`: [`check_policy`].
//! - `showing`: [`show`], the help and the version.
//! - `report`: [`tell`], what is said of a stream that was filtered.
//! - `output`: [`write_text`]; and messages as lines of hexadecimal digits.
//! - `fault`: [`Fault`], with [`Absent`]; `failure`: [`Failure`], what failed and why, with [`Place`].
//! - `files`: [`read_text`], and [`of_file`], what the system answers of a file.
//! - `policy_source`: the text of a policy, from where it comes.
//! - `hex_input`: a stream as hexadecimal text.
//!
//! Proved: `filter` answers a report only where the whole input, as octets or as what its hexadecimal text spells, was
//! filtered with the policy, the name, the time and the target that the options give, the output got exactly the octets that
//! `mediator_offline` says of these messages, with `--hex` a line of digits for each message that is due, and the report counts
//! them. `check_policy` is done only where the text is a policy, and its counts were written. A fault stands only where its
//! cause does, and what was written by then is said with it (`err` of each).
//!
//! A policy given as words has a line feed for each semicolon (`text` of `policy_text_of`); what a fault of the engine, of
//! settings, of the command line or of memory becomes is exact (`from_gives` of each), and so are a fault's text (`output` of
//! its `Display`), its status and what is said of it (`report`); before a device's fault stands at most one line, of which the
//! name is told, and the system's text of why is some text without a line feed (`IsLineOf`). A device's fault names no file
//! or stream but one that is used there, and the output only where a front of its text was written (`err` of each). Octets read
//! from hexadecimal text are what the whole text spells, white space skipped, and a text that is refused as no hexadecimal spells
//! nothing (`ok`, `hex` of `read_hex`); what the audit's writer gets (`filter_input`, `filter_octets`).
//!
//! Shown by tests alone, those of the process and `tests_program`: that the audit's writer is the file of `--audit`, that all is
//! flushed, the order of faults, and the texts that the parser makes, of the help (the output grew by some text) and of a refused
//! command line.
#![tactic(auto)]

mod check;
mod failure;
mod fault;
mod files;
mod filtering;
mod hex_input;
mod output;
mod policy_source;
mod report;
mod showing;

pub use check::check_policy;
pub use failure::{Failure, Place};
pub use fault::{Absent, Fault};
pub use files::{of_file, read_text};
pub use filtering::filter;
pub use output::{flush, put_text, write_text};
pub use report::tell;
pub use showing::show;
