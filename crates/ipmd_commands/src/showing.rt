//! Writes the help and the version.

ghost use Rattle.std.specs.Prelude.{IfErr, OnOk};
ghost use Rattle.clap.specs.Values.{kind_of};
ghost use Rattle.octet_io.specs.Device.{device_inner};
ghost use Rattle.ipmd_commands.specs.Runs.{RefusesToShow, ShowsText};

use crate::fault::Fault;
use crate::output::write_text;
use clap::error::ErrorKind;
use ipmd_command_line::{KIT, VERSION};
use octet_io::Device;
use std::alloc::Global;
use std::io::Write;

/// Writes the version, or the help, to `output`: what `shown` is, which the parser has made. The text takes memory from `alloc`.
///
/// # Errors
/// `Device`, of the output, where that fails; or `OutOfMemory`.
#[tactic(auto, using(crate::proofs::Lines::kept))]
pub fn show<O: Write>(
    alloc: Global,
    shown: &clap::Error,
    output: &mut Device<O>,
) -> Result<(), Fault>
    ensures ok { OnOk result (ShowsText (kind_of shown.now)
        (O.contents (device_inner output.old)) (O.contents (device_inner output.new))) }
    ensures err { IfErr result (λ e. RefusesToShow (kind_of shown.now) e
        (O.contents (device_inner output.old)) (O.contents (device_inner output.new))) }
{
    let text = match shown.kind() {
        ErrorKind::DisplayVersion => format!(in alloc; "ipmd {VERSION}, proved with {KIT}\n")?,
        _ => format!(in alloc; "{shown}")?,
    };
    write_text(output, text.as_str())
}
