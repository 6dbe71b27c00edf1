//! The files of the journals of runs that follow each other: where a path says so, the journal of run K stands in the file
//! `PATH.K`. What a journal's file holds is `journal_files`'s.
//!
//! - `numbering`: [`next_number`], with which number the files of a folder go on.
//! - `folder`: [`first_free`], with which number they go on under a path.
//! - `keeping`: [`keep_run`], which writes a run's journal to its file; [`put_journal`] writes one to any file.
//!
//! Proved of `next_number`: what it answers is above the number of each name that is the name of a run's file (`above`), so that
//! none of these is written again. A fault names the file that failed (`err` of each). What happens in files, no contract can
//! say: that a file has the whole journal under its name, or isn't there, is shown by tests alone.
#![tactic(auto)]

mod folder;
mod keeping;
mod numbering;

pub use folder::first_free;
pub use keeping::{keep_run, put_journal};
pub use numbering::next_number;
