//! Writes what the program answers: a text, or messages as lines of hexadecimal digits.

ghost use Rattle.std.specs.Prelude.{◌≡◌, ◌⊎◌, OnOk, IfOk, IfErr, string_bytes};
ghost use Rattle.std.specs.Io.KnownBytes.{Appends, Keeps};
ghost use Rattle.octet_io.specs.Device.{device_inner};
ghost use Rattle.ipmd_commands.specs.HexText.{AreMessagesOf, hex_line, hex_lines, WritesLines, WritesSomeOf, WritesSomeLines};
ghost use Rattle.ipmd_commands.specs.declared.failure.Place.TheVariants.{Output};
ghost use Rattle.ipmd_commands.specs.declared.fault.Fault.TheVariants.{OutOfMemory};
ghost use Rattle.ipmd_commands.specs.Failures.{FailedAt};

use crate::fault::Fault;
use bytes::Bytes;
use ipfix_message::{Fault as DecodeError, Framer};
use octet_io::{Device, write_all};
use std::alloc::{AllocError, Global};
use std::io::Write;

/// Writes `text` to `output`, and sees that it has left.
///
/// # Errors
/// `Device`, of the output, where that fails. A front of the text may have been written.
#[tactic(auto, using(crate::proofs::Lines::all_written, crate::proofs::Lines::front_written))]
pub fn write_text<O: Write>(output: &mut Device<O>, text: &str) -> Result<(), Fault>
    ensures ok { OnOk result (Appends
        (O.contents (device_inner output.old)) (O.contents (device_inner output.new)) text.now) }
    ensures err { IfErr result (λ e. FailedAt Output e × WritesSomeOf text.now
        (O.contents (device_inner output.old)) (O.contents (device_inner output.new))) }
{
    put_text(output, text)?;
    flush(output)
}

/// Writes `text` to `output`. It may wait in a buffer there.
///
/// # Errors
/// `Device`, of the output, where that fails. A front of the text was written.
pub fn put_text<O: Write>(output: &mut Device<O>, text: &str) -> Result<(), Fault>
    ensures ok { OnOk result (Appends
        (O.contents (device_inner output.old)) (O.contents (device_inner output.new)) text.now) }
    ensures err { IfErr result (λ e. FailedAt Output e × WritesSomeOf text.now
        (O.contents (device_inner output.old)) (O.contents (device_inner output.new))) }
{
    match write_all(output, text.as_bytes()) {
        Ok(()) => Ok(()),
        Err(_) => Err(Fault::at_output(output)),
    }
}

/// Sees that all that was written to `output` has left.
///
/// # Errors
/// `Device`, of the output, where that fails.
pub fn flush<O: Write>(output: &mut Device<O>) -> Result<(), Fault>
    ensures kept { Keeps
        (O.contents (device_inner output.old)) (O.contents (device_inner output.new)) }
    ensures err { IfErr result (FailedAt Output) }
{
    match output.flush() {
        Ok(()) => Ok(()),
        Err(_) => Err(Fault::at_output(output)),
    }
}

/// Writes each message of `stream` to `output` as a line, and sees that all have left. Where a message ends, its header says (RFC
/// 7011, section 3.1). Lines take memory from `alloc`.
///
/// # Errors
/// `Device`, of the output, where that fails, or `OutOfMemory`. A front of the lines may have been written.
pub fn write_lines<O: Write>(
    alloc: Global,
    stream: &[u8],
    output: &mut Device<O>,
) -> Result<(), Fault>
    ensures ok { OnOk result (WritesLines stream.now
        (O.contents (device_inner output.old)) (O.contents (device_inner output.new))) }
    ensures err { IfErr result (λ e. ((e ≡ OutOfMemory) ⊎ FailedAt Output e) × WritesSomeLines
        stream.now (O.contents (device_inner output.old)) (O.contents (device_inner output.new))) }
{
    let messages = messages_of(alloc, stream)?;
    write_each(alloc, &messages, output)?;
    flush(output)
}

/// The whole messages of a stream, as far as it is one.
fn messages_of(alloc: Global, stream: &[u8]) -> Result<Vec<Bytes>, AllocError>
    ensures { IfOk result (λ messages. AreMessagesOf stream.now messages.items) }
{
    match Framer::new(alloc).feed(stream) {
        Ok(messages) => Ok(messages),
        Err(DecodeError::BadVersion) => Ok(Vec::new(alloc)),
        Err(DecodeError::BadLength) => Ok(Vec::new(alloc)),
        Err(DecodeError::ShortHeader) => unreachable!(),
        Err(DecodeError::BadSetLength) => unreachable!(),
        Err(DecodeError::TemplateOverrun) => unreachable!(),
        Err(DecodeError::OutOfMemory) => Err(AllocError),
    }
}

/// Writes each message as a line.
fn write_each<O: Write>(
    alloc: Global,
    messages: &[Bytes],
    output: &mut Device<O>,
) -> Result<(), Fault>
    ensures ok { OnOk result (Appends
        (O.contents (device_inner output.old)) (O.contents (device_inner output.new))
        (hex_lines messages.now)) }
    ensures err { IfErr result (λ e. ((e ≡ OutOfMemory) ⊎ FailedAt Output e)
        × WritesSomeOf (hex_lines messages.now)
        (O.contents (device_inner output.old)) (O.contents (device_inner output.new))) }
{
    'messages: for message in messages {
        let line = hex_line(alloc, message.as_slice())?;
        put_text(output, line.as_str())?;
    }
    Ok(())
}

/// A message in lower-case hexadecimal digits, and a line feed.
fn hex_line(alloc: Global, message: &[u8]) -> Result<String, AllocError>
    ensures { IfOk result (λ line. string_bytes line ≡ hex_line message.now) }
{
    let mut line = hex::encode(alloc, message)?;
    line.push('\n')?;
    Ok(line)
}
