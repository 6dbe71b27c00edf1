//! Opens and reads the files that a command line names.
ghost use Rattle.std.specs.Prelude.{IfErr};
ghost use Rattle.ipmd_commands.specs.Failures.{IsFileFault};

use crate::fault::Fault;
use std::alloc::Global;
use std::io::{self, ErrorKind};
use std::rt::Files;
use std::{fs, str};

/// What the system answered to a call on the file whose path is `path`, given its `answer`.
///
/// # Errors
/// `Device`, of that file, or `OutOfMemory`, where the answer is an error or `alloc` has no memory for the path.
pub fn of_file<T>(alloc: Global, path: &str, answer: io::Result<T>) -> Result<T, Fault>
    ensures err { IfErr result (IsFileFault path.now) }
{
    match answer {
        Ok(value) => Ok(value),
        Err(why) => Err(Fault::at_file(alloc, path, why)),
    }
}

/// The text of the file whose path is `path`, read by `rt`.
///
/// # Errors
/// `Device`, of that file, where it can't be opened or read, or isn't UTF-8; or `OutOfMemory`.
pub fn read_text<R: Files + AllocGlobal>(rt: &R, path: &str) -> Result<String, Fault>
    ensures err { IfErr result (IsFileFault path.now) }
{
    let octets = of_file(rt.alloc(), path, fs::read(rt, path))?;
    match String::from_utf8(octets) {
        Ok(text) => Ok(text),
        Err(error) => {
            let place = error.utf8_error().valid_up_to();
            let why = format!(in rt.alloc(); "not UTF-8, octet {place}")?;
            let why = io::Error::new(ErrorKind::InvalidData, why.as_str());
            Err(Fault::at_file(rt.alloc(), path, why))
        }
    }
}
