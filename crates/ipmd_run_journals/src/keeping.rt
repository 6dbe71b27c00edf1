//! Writes the journal of a run to its file.
ghost use Rattle.std.specs.Prelude.{◌≡◌, IfErr, IfOk, string_bytes};
ghost use Rattle.ipmd_commands.specs.Failures.{IsFileFault};
ghost use Rattle.ipmd_run_journals.specs.Keeping.{IsKeepingFault, part_name};
ghost use Rattle.ipmd_run_journals.specs.Numbering.{file_name};

use crate::folder::parts_of;
use event_journal::Journal;
use ipmd_commands::{Fault as ProgramFault, of_file};
use journal_files::{Fault, write_journal};
use octet_io::Device;
use std::alloc::{AllocError, Global};
use std::fs;
use std::fs::OpenFile;
use std::io::{BufWriter, Write};
use std::rt::Files;

/// How many octets of a journal's file are written at once.
const BUFFER: usize = 65_536;

/// Writes `journal`, that of run `number`, to the file `PATH.NUMBER`, where PATH is `path`, and answers the file's path. It is
/// first written to `PATH.NUMBER.part`; when it has reached the disk, it gets its name. So under its name it is whole. A file
/// that had the name before is replaced. `rt` writes files and gives memory.
///
/// # Errors
/// `Device`, of `PATH.NUMBER.part` where that can't be written, or of `PATH.NUMBER` where it can't get this name; or
/// `OutOfMemory`. Then `PATH.NUMBER.part` may be there.
pub fn keep_run<R: Files + AllocGlobal>(
    rt: &R,
    path: &str,
    number: u64,
    journal: &Journal,
) -> Result<String, ProgramFault>
    ensures err { IfErr result (IsKeepingFault path.now number) }
{
    let alloc = rt.alloc();
    let name = file_path(alloc, path, number)?;
    let part = part_path(alloc, name.as_str())?;
    write_file(rt, part.as_str(), journal)?;
    let named = fs::rename(rt, part.as_str(), name.as_str());
    of_file(alloc, name.as_str(), named)?;
    let (folder, _) = parts_of(path);
    sync_folder(rt, folder);
    Ok(name)
}

/// The path of a run's file.
fn file_path(alloc: Global, path: &str, number: u64) -> Result<String, AllocError>
    ensures { IfOk result (λ name. string_bytes name ≡ file_name path.now number) }
{
    format!(in alloc; "{path}.{number}")
}

/// The path that it has until it is whole.
fn part_path(alloc: Global, name: &str) -> Result<String, AllocError>
    ensures { IfOk result (λ part. string_bytes part ≡ part_name name.now) }
{
    format!(in alloc; "{name}.part")
}

/// Writes a journal to a file, which is made empty first, and has it reach the disk.
fn write_file<R: Files + AllocGlobal>(
    rt: &R,
    path: &str,
    journal: &Journal,
) -> Result<(), ProgramFault>
    ensures err { IfErr result (IsFileFault path.now) }
{
    let alloc = rt.alloc();
    let file = of_file(alloc, path, fs::create(rt, path))?;
    let buffer = of_file(alloc, path, BufWriter::with_capacity(alloc, BUFFER, file))?;
    let mut sink = Device::new(buffer);
    put_journal(alloc, path, journal, &mut sink)?;
    of_file(alloc, path, sink.into_inner().get_ref().sync_all())
}

/// Writes `journal` to `sink`, and sees that it has left. The sink writes the file whose path is `path`, by which a fault names
/// it. Memory is taken from `alloc`.
///
/// # Errors
/// `Device`, of the file, where it can't be written; or `OutOfMemory`. A front of the file may have been written.
pub fn put_journal<W: Write>(
    alloc: Global,
    path: &str,
    journal: &Journal,
    sink: &mut Device<W>,
) -> Result<(), ProgramFault>
    ensures err { IfErr result (IsFileFault path.now) }
{
    match write_journal(alloc, journal, sink) {
        Ok(()) => {}
        Err(Fault::OutOfMemory) => return Err(ProgramFault::OutOfMemory),
        // The sink failed: there is no other fault of writing.
        Err(_) => return Err(ProgramFault::at_file(alloc, path, sink.why())),
    }
    match sink.flush() {
        Ok(()) => Ok(()),
        Err(_) => Err(ProgramFault::at_file(alloc, path, sink.why())),
    }
}

/// Has a folder's names reach the disk. Not every file system can be asked for that, so a refusal is none here.
fn sync_folder<R: Files>(rt: &R, folder: &str) {
    if let Ok(opened) = fs::open(rt, folder) {
        let _synced = opened.sync_all();
    }
}
