//! The octets of an administrator's connection, handed out as lines and as texts of a given length.
ghost use Rattle.std.specs.Prelude.{◌≡◌, ℕ, ◌+◌, ◌≤◌, ◌<◌, List, [], ◌∷◌, true, false, length, take, IfOk, IfErr, OnOk, MatchOption};
ghost use Rattle.std.specs.Io.KnownBytes.{Consumes, IsAtEnd, Keeps};
ghost use Rattle.mediator_connections.specs.declared.fault.Fault.TheVariants.{Read};
ghost use Rattle.mediator_connections.specs.Faults.{fails_reader};
ghost use Rattle.mediator_connections.specs.CommandInput.{unread, Fills, HandsOutOctets, EndsBehind, IsLine, IsInside, StopsReading};

use crate::fault::Fault;
use admin_text::LONGEST_LINE;
use ipfix_reader::FramingFault;
use octet_io::{Failed, Source};
use std::alloc::{AllocError, Global};
use std::marker::Model;

/// The most octets of one read.
const PIECE: usize = 65_536;

/// The octets of a connection, which are read in pieces and handed out in lines and texts. The number of its reads is limited.
#[derive(Drop)]
pub(crate) struct CommandInput {
    /// Room for one piece.
    piece: Vec<u8>,
    /// The first octet of the piece that isn't handed out yet.
    from: usize,
    /// Where what was read into the piece ends.
    to: usize,
    /// The reads that are left.
    turns: u64,
}

impl Model for CommandInput {
    ghost use Rattle.std.specs.Prelude.{◌≤◌, ◌<◌, length, take, drop};
    ghost use Rattle.mediator_connections.specs.CommandInput.{InputState};

    ghost Value = { InputState };

    ghost view = { λ i. record { pending = drop i.from (take i.to i.piece.items); turns = i.turns } };

    ghost invariant = { λ i. (i.from ≤ i.to) × (i.to ≤ length i.piece.items)
        × (0 < length i.piece.items) };
}

impl CommandInput {
    /// An input of which nothing is read yet, and that makes at most `turns` reads.
    ///
    /// # Errors
    /// Want of memory.
    pub(crate) fn new(alloc: Global, turns: u64) -> Result<CommandInput, AllocError>
        ensures { IfOk result (λ i. i ≡ unread turns) }
    {
        Ok(CommandInput {
            piece: Vec::from_elem(alloc, 0, PIECE)?,
            from: 0,
            to: 0,
            turns,
        })
    }

    /// The next line, without its line feed; of one that is longer than a line may be, the first octets, one more than it may
    /// have. `None` where the input ended before it.
    ///
    /// # Errors
    /// The reader failed; or the input ends inside the line; or no read is left; or memory ran out.
    pub(crate) fn next_line<R: Source>(
        &mut self,
        alloc: Global,
        reader: &mut R,
    ) -> Result<Option<Vec<u8>>, Fault>
        requires reader { R.has_failed reader.old ≡ false }
        // The line, or that the input ended before it.
        ensures ok { IfOk result (λ found. MatchOption found
            (EndsBehind self.old (R.remaining reader.old) (R.remaining reader.new) [])
            (λ line. (octets : List ℕ) × IsLine line.items octets × HandsOutOctets self.old
            (R.remaining reader.old) (R.remaining reader.new) octets self.new)) }
        ensures sound { OnOk result (R.has_failed reader.new ≡ false) }
        // The reader has failed only where the fault is `Read`; and behind which octets of the line it stopped.
        ensures fails { IfErr result (λ e. R.has_failed reader.new ≡ fails_reader e) }
        ensures err { IfErr result (λ e. (octets : List ℕ) × StopsReading e self.old
            (R.remaining reader.old) (R.remaining reader.new) octets self.new × IsInside e octets) }
    {
        let mut line = Vec::new(alloc);
        'octets: while line.len() <= LONGEST_LINE {
            match self.next_octet(reader)? {
                Some(b'\n') => return Ok(Some(line)),
                Some(octet) => {
                    line.reserve(1)?;
                    line.push_reserved(octet);
                }
                None if line.is_empty() => return Ok(None),
                None => return Err(Fault::Framing(FramingFault::CutOff)),
            }
        }
        Ok(Some(line))
    }

    /// The next `count` octets.
    ///
    /// # Errors
    /// The reader failed; or the input ends before them; or no read is left; or memory ran out.
    pub(crate) fn take<R: Source>(
        &mut self,
        alloc: Global,
        reader: &mut R,
        count: u32,
    ) -> Result<Vec<u8>, Fault>
        requires reader { R.has_failed reader.old ≡ false }
        // The next octets, and just as many as are wanted.
        ensures ok { IfOk result (λ text. HandsOutOctets self.old
            (R.remaining reader.old) (R.remaining reader.new) text.items self.new) }
        ensures count { IfOk result (λ text. length text.items ≡ count) }
        // The reader has failed only where the fault is `Read`; and behind which octets of the text it stopped.
        ensures sound { OnOk result (R.has_failed reader.new ≡ false) }
        ensures fails { IfErr result (λ e. R.has_failed reader.new ≡ fails_reader e) }
        ensures err { IfErr result (λ e. (octets : List ℕ) × StopsReading e self.old
            (R.remaining reader.old) (R.remaining reader.new) octets self.new) }
    {
        let mut text = Vec::new(alloc);
        'octets: for _ in 0..count {
            match self.next_octet(reader)? {
                Some(octet) => {
                    text.reserve(1)?;
                    text.push_reserved(octet);
                }
                None => return Err(Fault::Framing(FramingFault::CutOff)),
            }
        }
        Ok(text)
    }

    /// The next octet; `None` at the end of the input.
    ///
    /// # Errors
    /// The reader failed; or no read is left.
    fn next_octet<R: Source>(&mut self, reader: &mut R) -> Result<Option<u8>, Fault>
        requires reader { R.has_failed reader.old ≡ false }
        // The next octet, or that the input ended before it.
        ensures ok { IfOk result (λ found. MatchOption found
            (EndsBehind self.old (R.remaining reader.old) (R.remaining reader.new) [])
            (λ octet. HandsOutOctets self.old (R.remaining reader.old) (R.remaining reader.new)
            (octet ∷ []) self.new)) }
        ensures sound { OnOk result (R.has_failed reader.new ≡ false) }
        // The reader has failed only where the fault is `Read`. No octet was handed out.
        ensures fails { IfErr result (λ e. R.has_failed reader.new ≡ fails_reader e) }
        ensures err { IfErr result (λ e. StopsReading e self.old
            (R.remaining reader.old) (R.remaining reader.new) [] self.new × IsInside e []) }
    {
        self.fill(reader)?;
        Ok(self.pop())
    }

    /// Reads once more where nothing is pending; nothing is pending then only at the end of the input.
    ///
    /// # Errors
    /// The reader failed; or no read is left.
    fn fill<R: Source>(&mut self, reader: &mut R) -> Result<(), Fault>
        requires reader { R.has_failed reader.old ≡ false }
        // An octet is pending, or the input has ended.
        ensures ok { OnOk result (Fills self.old
            (R.remaining reader.old) (R.remaining reader.new) self.new) }
        ensures sound { OnOk result (R.has_failed reader.new ≡ false) }
        // The reader has failed only where the fault is `Read`. No octet was handed out.
        ensures fails { IfErr result (λ e. R.has_failed reader.new ≡ fails_reader e) }
        ensures err { IfErr result (λ e. StopsReading e self.old
            (R.remaining reader.old) (R.remaining reader.new) [] self.new × IsInside e []) }
    {
        if self.from != self.to {
            return Ok(());
        }
        if self.turns == 0 {
            return Err(Fault::Turns);
        }
        self.turns -= 1;
        self.from = 0;
        self.to = 0;
        self.to = read_piece(reader, &mut self.piece)?;
        Ok(())
    }

    /// Hands out the first octet that is pending.
    fn pop(&mut self) -> Option<u8>
        ensures { MatchOption result ((self.old.pending ≡ []) × (self.new ≡ self.old))
            (λ octet. (self.old.pending ≡ octet ∷ self.new.pending)
            × (self.new.turns ≡ self.old.turns)) }
    {
        if self.from == self.to {
            return None;
        }
        let octet = self.piece[self.from];
        self.from += 1;
        Some(octet)
    }
}

/// Reads octets into the front of the piece, and says how many; none only at the end.
///
/// # Errors
/// The reader failed.
fn read_piece<R: Source>(reader: &mut R, piece: &mut Vec<u8>) -> Result<usize, Fault>
    requires { 0 < length piece.old.items }
    // What was read stands in the front of the piece; nothing, only at the end.
    ensures length { length piece.new.items ≡ length piece.old.items }
    ensures ok { IfOk result (λ n. (n ≤ length piece.new.items)
        × Consumes (R.remaining reader.old) (R.remaining reader.new) (take n piece.new.items)) }
    ensures end { IfOk result (λ n. n ≡ 0 → IsAtEnd (R.remaining reader.new)) }
    // At a fault nothing was read.
    ensures stays { OnOk result (R.has_failed reader.new ≡ R.has_failed reader.old) }
    ensures err { IfErr result (λ e. (e ≡ Read)
        × Keeps (R.remaining reader.old) (R.remaining reader.new)
        × (R.has_failed reader.new ≡ true)) }
{
    match reader.read(piece.as_mut_slice()) {
        Ok(count) => Ok(count),
        Err(Failed) => Err(Fault::Read),
    }
}
