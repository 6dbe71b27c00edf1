//! Does what `ipmd explain` is asked for.
ghost use Rattle.std.specs.Prelude.{◌≡◌, IfErr, OnOk};
ghost use Rattle.octet_io.specs.Device.{device_inner};
ghost use Rattle.ipmd_explain.specs.Answers.{Explains, ExplainsFile, RefusesToExplain, RefusesToExplainFile, question_of};

use crate::question::Question;
use crate::reading::explain_source;
use ipmd_command_line::ExplainOptions;
use ipmd_commands::{Fault as ProgramFault, flush, of_file};
use ipmd_verify::Progress;
use octet_io::Device;
use std::alloc::Global;
use std::fs;
use std::io::{BufReader, Read, Write, sink};
use std::rt::Files;

/// How many octets of the file are read at once.
const FILE_BUFFER: usize = 65_536;

/// Says of the records of the journal in the file that `options` name what a subscription saw of them, and writes that to
/// `output`. The file is read twice: it is verified before anything is written, and then again as it is explained, so that no
/// more is kept in memory than what the entries mean. `rt` reads the file and gives memory, and `progress` is told how far it was
/// read the first time.
///
/// # Errors
/// `Device`, of the file, where it can't be opened, and what [`explain_input`] refuses. Only where the output fails, memory runs
/// out or the file is another one when it is read again, a front of what was due may have been written.
#[tactic(auto, using(crate::proofs::ReadingLaws::refuses_open, ipmd_commands::proofs::Lines::kept))]
pub fn explain<R: Files + AllocGlobal, O: Write, P: Progress>(
    rt: &R,
    options: &ExplainOptions<'_>,
    output: &mut Device<O>,
    progress: &mut P,
) -> Result<(), ProgramFault>
    ensures ok { OnOk result (ExplainsFile (question_of options.entry.now)
        (O.contents (device_inner output.old)) (O.contents (device_inner output.new))) }
    ensures err { IfErr result (λ e. RefusesToExplainFile options.entry.now e
        (O.contents (device_inner output.old)) (O.contents (device_inner output.new))) }
{
    let question = question_of(options);
    let (alloc, path) = (rt.alloc(), options.journal);
    let file = of_file(alloc, path, fs::open(rt, path))?;
    let input = of_file(
        alloc,
        path,
        BufReader::with_capacity(alloc, FILE_BUFFER, file),
    )?;
    let mut unsaid = Device::new(sink());
    explain_input(alloc, question, path, input, &mut unsaid, progress)?;
    progress.silence();
    let file = of_file(alloc, path, fs::open(rt, path))?;
    let input = of_file(
        alloc,
        path,
        BufReader::with_capacity(alloc, FILE_BUFFER, file),
    )?;
    explain_input(alloc, question, path, input, output, progress)
}

/// Says of the records of the journal whose file is read from `input` what a subscription saw of them, as `question` asks, and
/// writes that to `output` as they come. `path` is the path by which a fault names the file. `progress` is told how far it was
/// read. Memory is taken from `alloc`.
///
/// # Errors
/// In this order: `Device`, of the file, where `input` fails, and `Journal`, the file's first fault; `History`, the first entry
/// that may not stand where it does; `Absent`, what was asked for and isn't there. Beside these `Device`, of the output, where
/// that fails, and `OutOfMemory`. A front of what was due may have been written at each.
#[tactic(auto, using(crate::proofs::ReadingLaws::explains_flushed, crate::proofs::ReadingLaws::refuses_flush))]
pub fn explain_input<I: Read + Drop, O: Write, P: Progress>(
    alloc: Global,
    question: Question,
    path: &str,
    input: I,
    output: &mut Device<O>,
    progress: &mut P,
) -> Result<(), ProgramFault>
    ensures ok { OnOk result (Explains question (I.remaining input)
        (O.contents (device_inner output.old)) (O.contents (device_inner output.new))) }
    ensures err { IfErr result (λ e. RefusesToExplain question path.now e (I.remaining input)
        (O.contents (device_inner output.old)) (O.contents (device_inner output.new))) }
{
    let mut source = Device::new(input);
    let explained = explain_source(alloc, question, &mut source, output, progress);
    progress.end();
    match explained {
        Ok(()) => flush(output),
        Err(fault) => Err(fault.named(alloc, path, source.why())),
    }
}

/// What the options ask.
fn question_of(options: &ExplainOptions<'_>) -> Question
    ensures { result ≡ question_of options.entry.now }
{
    Question {
        sub: options.sub,
        position: options.position,
        index: options.index,
    }
}
