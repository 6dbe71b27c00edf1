//! Does what `ipmd replay` is asked for.

ghost use Rattle.std.specs.Prelude.{IfErr, IfOk, OnOk};
ghost use Rattle.octet_io.specs.Device.{device_inner};
ghost use Rattle.ipmd_commands.specs.Failures.{IsFileFault};
ghost use Rattle.ipmd.specs.Replays.{RefusesText, RefusesToReplay, Replays, RunsText};

use event_journal::Journal;
use ipmd_command_line::ReplayOptions;
use ipmd_commands::{Fault as ProgramFault, of_file, read_text, write_text};
use ipmd_run_journals::put_journal;
use mediator_core::{Transcript, run};
use octet_io::Device;
use replay_text::{answers_text, read_call_list};
use std::alloc::Global;
use std::fs;
use std::io::{BufWriter, Write};
use std::rt::Files;

/// How many octets of a journal's file are written at once.
const JOURNAL_BUFFER: usize = 65_536;

/// Makes the calls that a file lists, as `options` say, on a new mediator, one after another. Then it keeps the journal of what
/// was accepted, where that is asked for, and writes the answer to each call to `output`. `rt` reads and writes files and gives
/// memory.
///
/// # Errors
/// `Device`, of the list's file where that can't be read or isn't UTF-8, of the journal's where that can't be written, or of the
/// output; `Calls` where the text is no list of calls; `Mediator`, with `BadLimits`, where the limits that it sets are out of
/// their ranges; or `OutOfMemory`. Only where the output fails a front of the answers may have been written.
#[tactic(auto, using(ipmd_commands::proofs::Lines::kept, crate::proofs::Replaying::no_calls, crate::proofs::Replaying::no_journal, crate::proofs::Replaying::no_answer))]
pub fn replay<R: Files + AllocGlobal, O: Write>(
    rt: &R,
    options: &ReplayOptions<'_>,
    output: &mut Device<O>,
) -> Result<(), ProgramFault>
    ensures ok { OnOk result (Replays
        (O.contents (device_inner output.old)) (O.contents (device_inner output.new))) }
    ensures err { IfErr result (λ e. RefusesToReplay options.entry.now e
        (O.contents (device_inner output.old)) (O.contents (device_inner output.new))) }
{
    let text = read_text(rt, options.calls)?;
    let Transcript { replies, mediator } = run_text(rt.alloc(), text.as_str())?;
    let answers = answers_text(rt.alloc(), &replies)?;
    if let Some(path) = options.journal {
        keep_journal(rt, path, &mediator.finish().journal)?;
    }
    write_text(output, answers.as_str())
}

/// Writes a journal to the file at a path, which is made empty first.
///
/// # Errors
/// `Device`, of the file, where it can't be written; `OutOfMemory`.
fn keep_journal<R: Files + AllocGlobal>(
    rt: &R,
    path: &str,
    journal: &Journal,
) -> Result<(), ProgramFault>
    ensures err { IfErr result (IsFileFault path.now) }
{
    let alloc = rt.alloc();
    let file = of_file(alloc, path, fs::create(rt, path))?;
    let buffer = of_file(
        alloc,
        path,
        BufWriter::with_capacity(alloc, JOURNAL_BUFFER, file),
    )?;
    put_journal(alloc, path, journal, &mut Device::new(buffer))
}

/// Makes the calls that a text lists, on a new mediator.
fn run_text(alloc: Global, text: &str) -> Result<Transcript, ProgramFault>
    ensures ok { IfOk result (RunsText text.now) }
    ensures err { IfErr result (λ e. RefusesText e text.now) }
{
    let list = read_call_list(alloc, text)?;
    Ok(run(alloc, list.limits, list.calls)?)
}
