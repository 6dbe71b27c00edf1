//! `ipmd`, an IPFIX distribution mediator: passes on what a written policy discloses of the messages (RFC 7011) of
//! exporters, of one stream or served over TCP; and checks policies.
//!
//! - [`program`]: all that the process does, over streams and files that it is handed.
//! - `serve`: `ipmd serve`, with `runs`, the runs that follow each other; `noting`: the runtime that a server is handed, with
//!   its log; `notes`: where that goes; `descriptors`: whether there may be as many as a service needs.
//! - `replay`: `ipmd replay`.
//! - `system`: [`System`], what the program asks of the system.
//!
//! What may be asked for, and what words ask for, is `ipmd_command_line`'s. What is done for one stream, one policy or one text
//! is `ipmd_commands`'s, with the texts and the exit statuses of faults; for a journal's file it is `ipmd_verify`'s and
//! `ipmd_explain`'s.
//!
//! Proved of `program`: it is safe, and what it calls for all commands but `serve` returns. Its status is 0 only where it did
//! what the words ask for (`done`): the whole input, as octets or as what its hexadecimal text spells, was filtered with the
//! policy, the name, the time and the target that the words give, the output got exactly the octets that `mediator_offline` says of
//! these messages, with `--hex` a line of digits for each message that is due, and the report counts them; or the text is a
//! policy, and its counts were written; or the calls of a list were made, and their answers written; or settings were read, the
//! plan that they ask for was served to its end, and the counts of what was accepted and handed out were written, of a journal in
//! which each entry has its receipt; or the text of a legal history was written, or what explains it; or help or the version was
//! written. Every other status is that of a fault with its cause (`fails`): the words ask for nothing that there is, the text has
//! this fault, the mediator or the server stopped so, or a device failed or memory ran out. What was written by then is said with
//! it. The stream for errors grew by exactly the line of the report (`Tells`), or of the fault, behind at most one line that
//! names the file or the stream that failed (`Blames`), unless it failed itself; a policy's counts, answers, the help and the
//! version leave it alone (`Reports`). Of a server that was run these lines stand behind notes of which nothing is told.
//!
//! Shown by tests alone: a server's notes, the order of faults, and how far a journal's file was read, which `progress` is told.
#![tactic(auto)]

ghost use Rattle.std.specs.Prelude.{◌≡◌, ◌≢◌, map, IfErr, IfOk};
ghost use Rattle.octet_io.specs.Device.{device_failed, device_inner};
ghost use Rattle.octet_io.specs.Moments.{writer_of};
ghost use Rattle.std.specs.Io.KnownBytes.{Keeps};
ghost use Rattle.write_behind.specs.Holding.{held_in};
ghost use Rattle.ipmd_commands.specs.Status.{status_of};
ghost use Rattle.ipmd_commands.specs.declared.fault.Fault.{Fault as ProgramFault};
ghost use Rattle.ipmd.specs.Program.{Does, FailsFor, IsDone, IsFault};

mod descriptors;
mod notes;
mod noting;
mod replay;
mod runs;
mod serve;
mod system;

use crate::replay::replay;
use crate::serve::serve;
use crate::system::System;
use ipmd_command_line::{Task, read_command_line};
use ipmd_commands::{Fault as ProgramFault, Place, check_policy, filter, show, tell};
use ipmd_explain::explain;
use ipmd_verify::{OnTerminal, Progress, verify};
use mediator_offline::OfflineReport;
use octet_io::Device;
use std::alloc::Global;
use std::convert::AsStr;
use std::env;
use std::io::{self, ErrorKind, IsTerminal, Read, Write};
use std::net::{Net, TcpListener, TcpStream};
use std::os::fd::{AsRawFd, RawFd};
use std::process::ExitCode;
use std::rt::Env;
use std::sync::Wait;
use std::thread::Threads;
use write_behind::WriteBehind;

/// The exit status of a run that did what was asked.
const DONE: u8 = 0;

fn main(rt: HostRuntime) -> ExitCode {
    let mut errors = Device::new(rt.stderr());
    let status = match words_after_name(&rt) {
        Ok(words) => {
            let mut output = Device::new(output_for(rt, words.as_slice(), rt.stdout()));
            let status = program(
                &rt,
                words.as_slice(),
                rt.stdin(),
                &mut output,
                &mut errors,
                rt.stderr().as_raw_fd(),
                &mut OnTerminal::new(Device::new(rt.stderr()), rt.stderr().is_terminal()),
            );
            finish(rt.alloc(), status, output.into_inner(), &mut errors)
        }
        Err(fault) => fault.report(rt.alloc(), &mut errors),
    };
    ExitCode::from(status)
}

/// What is written to `output` for these words: those of `ipmd offline`, which may be long, in a thread of its own.
fn output_for<
    R: AllocGlobal + Threads + Wait + Copy + Send + Drop + 'static,
    W: Write + Send + Drop + 'static,
>(rt: R, words: &[String], output: W) -> WriteBehind<W, R>
    ensures { Keeps (W.contents output) (held_in W.contents result) }
{
    match words.first() {
        Some(word) if word.as_str() == "offline" => WriteBehind::start(rt, rt.alloc(), output),
        _ => WriteBehind::new(rt, output),
    }
}

/// Sees that all has left that was written to `output`, where `status` says that what was asked is done, and answers the status
/// that the process ends with.
#[tactic(auto, using(crate::proofs::Statuses::no_fault_is_done))]
fn finish<W: Write + Drop, R: Threads + Drop, E: Write>(
    alloc: Global,
    status: u8,
    output: WriteBehind<W, R>,
    errors: &mut Device<E>,
) -> u8
    ensures { result ≡ 0 → status ≡ 0 }
{
    if status != DONE {
        return status;
    }
    match output.into_inner() {
        Ok(_) => DONE,
        Err(why) => ProgramFault::failed(Place::Output, why).report(alloc, errors),
    }
}

/// The words of the command line after the program's name.
///
/// # Errors
/// `Device`, of the command line, where it isn't UTF-8; `OutOfMemory`.
fn words_after_name<R: Env + AllocGlobal>(rt: &R) -> Result<Vec<String>, ProgramFault> {
    match env::args(rt) {
        Ok(words) => Ok(words.skip(1).collect(rt.alloc())?),
        Err(why) if why.kind() == ErrorKind::OutOfMemory => Err(ProgramFault::OutOfMemory),
        Err(_) => {
            let why = io::Error::new(ErrorKind::InvalidData, "not UTF-8");
            Err(ProgramFault::failed(Place::CommandLine, why))
        }
    }
}

/// Does what `words` ask for, those behind the program's name, and answers the exit status: 0 where it is done, 1 where the input
/// is refused or memory runs out, 2 for a refused command line, 3 where a device fails. `input` is the stream that `ipmd offline`
/// filters. `output` gets what was asked for, and `errors` the report or the fault, and a server's notes; what `errors` doesn't
/// take is dropped. `descriptor` is that of `errors`, by which a server finds out whether a note would wait. `progress` is told
/// how far a journal's file was read. All else that is asked of the system goes through `rt`.
#[tactic(auto, using(crate::proofs::Statuses::no_fault_is_done))]
pub fn program<R: System, S: AsStr, I: Read + Drop, O: Write, E: Write + Send, P: Progress>(
    rt: &R,
    words: &[S],
    input: I,
    output: &mut Device<O>,
    errors: &mut Device<E>,
    descriptor: RawFd,
    progress: &mut P,
) -> u8
where
    R: Net<Listener = TcpListener, Stream = TcpStream>,
    R::File: Send + 'static,
    ensures done { result ≡ 0 → IsDone (map S.text words.now) (I.remaining input)
        (writer_of (O.contents (device_inner output.old)) (O.contents (device_inner output.new)))
        (writer_of (E.contents (device_inner errors.old)) (E.contents (device_inner errors.new)))
        (device_failed errors.new) }
    ensures fails { result ≢ 0 → (e : ProgramFault) × (result ≡ status_of e)
        × IsFault (map S.text words.now) e (I.remaining input)
        (writer_of (O.contents (device_inner output.old)) (O.contents (device_inner output.new)))
        (writer_of (E.contents (device_inner errors.old)) (E.contents (device_inner errors.new)))
        (device_failed errors.new) }
{
    match run(rt, words, input, output, errors, descriptor, progress) {
        Ok(Some(report)) => {
            tell(report, errors);
            DONE
        }
        Ok(None) => DONE,
        Err(fault) => fault.report(rt.alloc(), errors),
    }
}

/// Does what the words ask for. The report is that of `ipmd offline`; other commands have none.
///
/// # Errors
/// Those of the command.
#[tactic(auto, using(ipmd_commands::proofs::Lines::kept))]
fn run<R: System, S: AsStr, I: Read + Drop, O: Write, E: Write + Send, P: Progress>(
    rt: &R,
    words: &[S],
    input: I,
    output: &mut Device<O>,
    errors: &mut Device<E>,
    descriptor: RawFd,
    progress: &mut P,
) -> Result<Option<OfflineReport>, ProgramFault>
where
    R: Net<Listener = TcpListener, Stream = TcpStream>,
    R::File: Send + 'static,
    ensures ok { IfOk result (λ report. Does (map S.text words.now) report (I.remaining input)
        (O.contents (device_inner output.old)) (O.contents (device_inner output.new))
        errors.old errors.new) }
    ensures err { IfErr result (λ e. FailsFor (map S.text words.now) e (I.remaining input)
        (O.contents (device_inner output.old)) (O.contents (device_inner output.new))
        errors.old errors.new) }
{
    match read_command_line(rt.alloc(), words)? {
        Task::Offline(options) => return Ok(Some(filter(rt, &options, input, output)?)),
        Task::CheckPolicy(source) => check_policy(rt, source, output)?,
        Task::Replay(options) => replay(rt, &options, output)?,
        Task::Serve(path) => serve(rt, path, output, errors, descriptor)?,
        Task::Verify(options) => verify(rt, &options, output, progress)?,
        Task::Explain(options) => explain(rt, &options, output, progress)?,
        Task::Show(shown) => show(rt.alloc(), &shown, output)?,
    }
    Ok(None)
}
