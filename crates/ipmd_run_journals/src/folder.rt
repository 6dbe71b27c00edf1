//! The number that is free for the next journal in a folder.
ghost use Rattle.std.specs.Prelude.{IfErr};
ghost use Rattle.ipmd_run_journals.specs.Keeping.{IsSomeFileFault};

use crate::numbering::next_number;
use ipmd_commands::{Fault as ProgramFault, of_file};
use std::alloc::{AllocError, Global};
use std::io::{self, Read};
use std::rt::Files;

/// How many octets of a folder are read at once.
const PIECE: usize = 8192;

/// The number with which the files of runs go on under `path`: one more than the greatest that its folder has, or 1. `rt` reads
/// the folder and gives memory.
///
/// # Errors
/// `Device`, of the folder, where it can't be read; or `OutOfMemory`.
pub fn first_free<R: Files + AllocGlobal>(rt: &R, path: &str) -> Result<u64, ProgramFault>
    ensures err { IfErr result IsSomeFileFault }
{
    let (folder, base) = parts_of(path);
    let alloc = rt.alloc();
    let mut opened = of_file(alloc, folder, rt.open_dir(folder))?;
    let octets = of_file(alloc, folder, read_all(alloc, &mut opened))?;
    let names = split_names(alloc, octets.as_slice())?;
    Ok(next_number(names.as_slice(), base.as_bytes()))
}

/// All that is read of a folder. The system gives whole names, so each read is lent room for the longest of them.
fn read_all<F: Read>(alloc: Global, folder: &mut F) -> io::Result<Vec<u8>> {
    let mut octets = Vec::new(alloc);
    let mut piece = [0u8; PIECE];
    for _ in 0..u64::MAX {
        let count = folder.read(&mut piece)?;
        if count == 0 {
            break;
        }
        octets.extend_from_slice(&piece[..count])?;
    }
    Ok(octets)
}

/// The folder of a path, with its last slash, and the name in it.
pub(crate) fn parts_of(path: &str) -> (&str, &str) {
    match path.rfind('/') {
        Some(at) => match path.split_at_checked(at.saturating_add(1)) {
            Some(parts) => parts,
            None => ("./", path),
        },
        None => ("./", path),
    }
}

/// The names in what a folder is read as: each is ended by an octet 0.
fn split_names(alloc: Global, octets: &[u8]) -> Result<Vec<Vec<u8>>, AllocError> {
    let mut names = Vec::new(alloc);
    let mut name = Vec::new(alloc);
    for octet in octets {
        if *octet == 0 {
            names.push(name)?;
            name = Vec::new(alloc);
        } else {
            name.push(*octet)?;
        }
    }
    Ok(names)
}
