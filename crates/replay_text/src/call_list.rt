//! Reads a list of calls from a text.
ghost use Rattle.std.specs.Prelude.{◌≡◌, Ok, IfErr, IfOk};
ghost use Rattle.std.specs.Option.{option_map};
ghost use Rattle.replay_text.specs.Lists.{AskedCalls, Reads, asked_calls, no_calls, calls_of_text, list_after_line, list_after, call_step, is_passed_over};
ghost use Rattle.replay_text.specs.Grammar.{IsFaultOf, Lists};

use crate::fault::Fault;
use crate::line::{read_call, read_limits};
use crate::words::cut_at;
use event_journal::{MOST_ENTRIES, MOST_OCTETS};
use mediator_calls::{Call, Limits};
use mediator_state::{DEFAULT_AUDIT, DEFAULT_QUEUE};
use std::alloc::{AllocError, Global};
use subscriber_stream::MOST_SHAPES;

/// The limits of a list that sets none: those of `ipmd offline`.
const DEFAULT_LIMITS: Limits = Limits {
    queue: DEFAULT_QUEUE,
    shapes: MOST_SHAPES,
    audit: DEFAULT_AUDIT,
    entries: MOST_ENTRIES,
    octets: MOST_OCTETS,
};

/// What a text of calls asks for.
#[derive(Debug, Drop)]
pub struct CallList {
    /// The mediator's limits.
    pub limits: Limits,
    /// The calls, in their order.
    pub calls: Vec<Call>,
}

/// What `text` asks for: a call a line, its words parted by one space. Empty lines and lines that begin with `#` are skipped; the
/// first other line may set the limits. The list takes memory from `alloc`.
///
/// # Errors
/// `Line` with the number of the first line that asks for nothing, or `OutOfMemory`.
pub fn read_call_list(alloc: Global, text: &str) -> Result<CallList, Fault>
    // What is read is listed so.
    ensures found { IfOk result (λ list. Lists text.now (asked_calls list)) }
    // What is listed so is read, unless memory runs out.
    ensures only { (list : AskedCalls) → Lists text.now list → Reads result (Ok list) }
    // What is refused has this first line that asks for nothing, unless memory ran out.
    ensures first { IfErr result (λ fault. IsFaultOf fault text.now) }
    // Which line it is.
    ensures exact { Reads result (calls_of_text text.now) }
{
    read_lines(alloc, text)
}

/// Reads the lines of a text, one after another.
fn read_lines(alloc: Global, text: &str) -> Result<CallList, Fault>
    ensures { Reads result (calls_of_text text.now) }
{
    let mut list = CallList::new(alloc);
    let mut started = false;
    let mut number = 1;
    let mut rest = text;
    'lines: while let Some((line, after)) = cut_at(rest, '\n') {
        started = match list.read_line(alloc, started, line)? {
            Some(started) => started,
            None => return Err(Fault::Line(number)),
        };
        number += 1;
        rest = after;
    }
    match list.read_line(alloc, started, rest)? {
        Some(_) => Ok(list),
        None => Err(Fault::Line(number)),
    }
}

impl CallList {
    /// No calls yet.
    fn new(alloc: Global) -> CallList
        ensures { asked_calls result ≡ no_calls }
    {
        CallList {
            limits: DEFAULT_LIMITS,
            calls: Vec::new(alloc),
        }
    }

    /// Reads a line, and says whether a line that isn't skipped was read by then. `None` where it asks for nothing.
    #[tactic(auto, unfolding(crate::specs::Lists::list_after_line))]
    fn read_line(
        &mut self,
        alloc: Global,
        started: bool,
        line: &str,
    ) -> Result<Option<bool>, AllocError>
        ensures { IfOk result (λ read. option_map (λ started. (started, asked_calls self.new)) read
            ≡ list_after_line started (asked_calls self.old) line.now) }
    {
        if is_skipped(line) {
            return Ok(Some(started));
        }
        match self.add_line(alloc, started, line)? {
            Some(()) => Ok(Some(true)),
            None => Ok(None),
        }
    }

    /// Reads a line that isn't skipped: the first may set the limits.
    #[tactic(auto, unfolding(crate::specs::Lists::list_after))]
    fn add_line(
        &mut self,
        alloc: Global,
        started: bool,
        line: &str,
    ) -> Result<Option<()>, AllocError>
        ensures { IfOk result (λ read. option_map (λ _. asked_calls self.new) read
            ≡ list_after started (asked_calls self.old) line.now) }
    {
        if started {
            return self.add_call(alloc, line);
        }
        match read_limits(line) {
            Some(limits) => {
                self.limits = limits;
                Ok(Some(()))
            }
            None => self.add_call(alloc, line),
        }
    }

    /// Adds the call that a line asks for. `None` where it asks for none.
    #[tactic(auto, unfolding(crate::specs::Lists::call_step))]
    fn add_call(&mut self, alloc: Global, line: &str) -> Result<Option<()>, AllocError>
        ensures { IfOk result (λ read. option_map (λ _. asked_calls self.new) read
            ≡ call_step (asked_calls self.old) line.now) }
    {
        let Some(call) = read_call(alloc, line)? else {
            return Ok(None);
        };
        self.calls.push(call)?;
        Ok(Some(()))
    }
}

/// Whether a line is empty, or begins with `#`.
fn is_skipped(line: &str) -> bool
    ensures { result ≡ is_passed_over line.now }
{
    match line.as_bytes().first() {
        Some(first) => *first == b'#',
        None => true,
    }
}
