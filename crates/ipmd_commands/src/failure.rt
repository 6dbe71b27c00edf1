//! What failed of a run's files and streams, and why.
ghost use Rattle.std.specs.Prelude.{◌≡◌, IfOk, string_bytes};
ghost use Rattle.ipmd_commands.specs.Failures.{IsFailureLine, failure_line, plain};

use std::alloc::{AllocError, Global};
use std::fmt::{self, Display, Formatter};
use std::io;

/// What failed, as the program names it. Its text is that name.
#[derive(Debug, Drop, PartialEq, Eq)]
pub enum Place {
    /// The words of the command line.
    CommandLine,
    /// Standard input.
    Input,
    /// Standard output.
    Output,
    /// The file, or the folder, at this path.
    File(String),
    /// The system's random numbers.
    RandomNumbers,
    /// The system's threads.
    Threads,
}

impl Display for Place {
    ghost use Rattle.std.specs.Prelude.{Some};
    ghost use Rattle.ipmd_commands.specs.Failures.{place_name};

    ghost output = { λ place. Some (place_name place) };

    fn fmt<W: fmt::Write>(&self, f: &mut Formatter<W>) -> fmt::Result {
        match self {
            Place::CommandLine => f.write_str("command line"),
            Place::Input => f.write_str("standard input"),
            Place::Output => f.write_str("standard output"),
            Place::File(path) => f.write_str(path.as_str()),
            Place::RandomNumbers => f.write_str("random numbers"),
            Place::Threads => f.write_str("threads"),
        }
    }
}

/// What failed of the system, and why.
#[derive(Debug, Drop)]
pub struct Failure {
    /// What failed.
    pub place: Place,
    /// What the system said of it.
    pub why: io::Error,
}

impl Failure {
    /// What is said of it, as a line.
    ///
    /// # Errors
    /// Want of memory.
    pub(crate) fn line(&self, alloc: Global) -> Result<String, AllocError>
        ensures { IfOk result (λ line. IsFailureLine self.now (string_bytes line)) }
    {
        let Failure { place, why } = self;
        let place = format!(in alloc; "{place}")?;
        let why = format!(in alloc; "{why}")?;
        line_of(alloc, place.as_str(), why.as_str())
    }
}

/// The line of a name and of what is said of it.
fn line_of(alloc: Global, name: &str, why: &str) -> Result<String, AllocError>
    ensures { IfOk result (λ line. string_bytes line ≡ failure_line name.now why.now) }
{
    let name = plain(alloc, name)?;
    let why = plain(alloc, why)?;
    format!(in alloc; "ipmd: {name}: {why}\n")
}

/// A text with a question mark in place of each control character, so that it is one line.
fn plain(alloc: Global, text: &str) -> Result<String, AllocError>
    ensures { IfOk result (λ shown. string_bytes shown ≡ plain text.now) }
{
    text.chars()
        .map(|c| if c.is_control() { '?' } else { c })
        .collect(alloc)
}
