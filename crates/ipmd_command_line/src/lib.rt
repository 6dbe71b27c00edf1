//! The command line of `ipmd`: what may be asked for, and what words ask for. It does nothing of it, and knows
//! neither messages nor policies.
//!
//! - `task`: [`Task`], what is asked for, with [`OfflineOptions`], [`VerifyOptions`],
//!   [`ExplainOptions`] and [`PolicySource`].
//! - `command_line`: [`read_command_line`], [`VERSION`] and [`KIT`].
//! - `help`: what the help says below the options.
//! - `fault`: [`Fault`].
//!
//! Proved: what words ask for is what clap makes of them by the commands and options of `specs/CommandLine`, and each
//! option of the answer is the one that the words give, or its default (`asked` of `read_command_line`). Words are
//! refused only where clap refuses them by these commands, where not exactly one option names the policy, or for want
//! of memory (`refused`). What a fault of the parser or of memory becomes is exact (`from_gives` of each).
//!
//! Shown by tests of the process alone: the texts that the parser makes, of the help and of a refused command line.
#![tactic(auto)]

mod command_line;
mod fault;
mod help;
mod task;

pub use command_line::{KIT, VERSION, read_command_line};
pub use fault::Fault;
pub use task::{ExplainOptions, OfflineOptions, PolicySource, ReplayOptions, Task, VerifyOptions};
