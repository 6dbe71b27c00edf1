//! Reads a stream that is written as hexadecimal text.
ghost use Rattle.std.specs.Prelude.{◌≡◌, ◌⊎◌, IfOk, IfErr, IfSome};
ghost use Rattle.std.specs.List.{filter};
ghost use Rattle.ipmd_commands.specs.HexText.{is_no_white_space, SpelledBy, SpellsNothing};
ghost use Rattle.ipmd_commands.specs.declared.failure.Place.TheVariants.{Input};
ghost use Rattle.ipmd_commands.specs.declared.fault.Fault.TheVariants.{Hex, OutOfMemory};
ghost use Rattle.ipmd_commands.specs.Failures.{FailedAt};

use crate::failure::Place;
use crate::fault::Fault;
use hex::FromHexError;
use std::alloc::Global;
use std::io::Read;

/// The octets that all of `input` spells in hexadecimal digits, of either case. White space is skipped. The octets take memory
/// from `alloc`.
///
/// # Errors
/// `Device`, of the input, where a read fails; `Hex` where the text is not hexadecimal; or `OutOfMemory`.
pub fn read_hex<I: Read + Drop>(alloc: Global, mut input: I) -> Result<Vec<u8>, Fault>
    ensures ok { IfOk result (λ octets.
        IfSome (I.remaining input) (λ text. SpelledBy text octets.items)) }
    ensures hex { IfErr result (λ e. e ≡ Hex → IfSome (I.remaining input) SpellsNothing) }
    ensures kinds { IfErr result (λ e. (e ≡ Hex) ⊎ ((e ≡ OutOfMemory) ⊎ FailedAt Input e)) }
{
    let mut text = Vec::new(alloc);
    match input.read_to_end(&mut text) {
        Ok(_) => {}
        Err(why) => return Err(Fault::at(Place::Input, why)),
    }
    skip_white_space(&mut text);
    match hex::decode(alloc, text.as_slice()) {
        Ok(octets) => Ok(octets),
        Err(FromHexError::OutOfMemory) => Err(Fault::OutOfMemory),
        Err(_) => Err(Fault::Hex),
    }
}

/// Removes the white space of a text.
fn skip_white_space(text: &mut Vec<u8>)
    ensures { text.new.items ≡ filter is_no_white_space text.old.items }
{
    text.retain(|octet| !octet.is_ascii_whitespace());
}
