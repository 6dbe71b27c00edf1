//! Does what `ipmd verify` is asked for.
ghost use Rattle.std.specs.Prelude.{IfErr, OnOk};
ghost use Rattle.octet_io.specs.Device.{device_inner};
ghost use Rattle.ipmd_verify.specs.Verifying.{Verifies, VerifiesFile, RefusesToVerify, RefusesToVerifyFile};

use crate::progress::Progress;
use crate::reading::read_history;
use crate::telling::text_of;
use ipmd_command_line::VerifyOptions;
use ipmd_commands::{Fault as ProgramFault, of_file, write_text};
use octet_io::Device;
use std::alloc::Global;
use std::fs;
use std::io::{BufReader, Read, Write};
use std::rt::Files;

/// How many octets of the file are read at once.
const FILE_BUFFER: usize = 65_536;

/// Verifies the journal in the file that `options` name, and writes what it disclosed to `output` and, unless this is to be
/// quiet, what its audit names. `rt` reads the file and gives memory, and `progress` is told how far it was read.
///
/// # Errors
/// `Device`, of the file, where it can't be opened, and what [`verify_input`] refuses.
#[tactic(auto, using(crate::proofs::Refusing::unopened, ipmd_commands::proofs::Lines::kept))]
pub fn verify<R: Files + AllocGlobal, O: Write, P: Progress>(
    rt: &R,
    options: &VerifyOptions<'_>,
    output: &mut Device<O>,
    progress: &mut P,
) -> Result<(), ProgramFault>
    ensures ok { OnOk result (VerifiesFile options.entry.now.quiet
        (O.contents (device_inner output.old)) (O.contents (device_inner output.new))) }
    ensures err { IfErr result (λ e. RefusesToVerifyFile options.entry.now e
        (O.contents (device_inner output.old)) (O.contents (device_inner output.new))) }
{
    let (alloc, path) = (rt.alloc(), options.journal);
    let file = of_file(alloc, path, fs::open(rt, path))?;
    let input = of_file(
        alloc,
        path,
        BufReader::with_capacity(alloc, FILE_BUFFER, file),
    )?;
    verify_input(alloc, options.quiet, path, input, output, progress)
}

/// Verifies the journal whose file is read from `input`, and writes what it disclosed to `output` and, unless `quiet` is set,
/// what its audit names. `path` is the path by which a fault names the file. `progress` is told how far it was read, unless
/// `quiet` is set. Memory is taken from `alloc`; it grows with the file only where its audit is written.
///
/// # Errors
/// In this order: `Device`, of the file, where `input` fails, and `Journal`, the file's first fault; `History`, the first entry
/// that may not stand where it does; then `Device`, of the output, where that fails, and a front of what was due may have been
/// written; and `OutOfMemory`. At each of the others nothing was written.
#[tactic(auto, using(crate::proofs::Refusing::refused, crate::proofs::Refusing::no_room, ipmd_commands::proofs::Lines::kept))]
pub fn verify_input<I: Read + Drop, O: Write, P: Progress>(
    alloc: Global,
    quiet: bool,
    path: &str,
    input: I,
    output: &mut Device<O>,
    progress: &mut P,
) -> Result<(), ProgramFault>
    ensures ok { OnOk result (Verifies quiet (I.remaining input)
        (O.contents (device_inner output.old)) (O.contents (device_inner output.new))) }
    ensures err { IfErr result (λ e. RefusesToVerify quiet path.now e (I.remaining input)
        (O.contents (device_inner output.old)) (O.contents (device_inner output.new))) }
{
    if quiet {
        progress.silence();
    }
    let mut source = Device::new(input);
    let read = read_history(alloc, !quiet, &mut source, progress);
    progress.end();
    match read {
        Ok(verified) => {
            let text = text_of(alloc, quiet, &verified)?;
            write_text(output, text.as_str())
        }
        Err(fault) => Err(fault.named(alloc, path, source.why())),
    }
}
