//! The intake: the messages of a source, in their order.
ghost use Rattle.std.specs.Prelude.{◌≡◌, ◌≤◌, ◌<◌, [], length, take, IfOk, IfErr, OnOk, MatchOption};
ghost use Rattle.std.specs.Io.KnownBytes.{Consumes, IsAtEnd};
ghost use Rattle.ipfix_reader.specs.Intake.{nothing_read, Yields, Ends, StopsIntake, reader_after};

use crate::fault::{Fault, FramingFault};
use bytes::Bytes;
use ipfix_message::{Fault as DecodeError, Framer};
use octet_io::{Failed, Source};
use std::alloc::{AllocError, Global};
use std::marker::Model;

/// The most octets of the first read, and of each read of an intake that doesn't widen.
const PIECE: usize = 65_536;

/// The most octets of one read of an intake that widens.
const WIDEST: usize = 262_144;

/// Reads a source in pieces, and hands out the messages that they make whole. It makes at most as many reads as it is
/// allowed. Contracts see the octets of a message that isn't whole yet, the fault of the stream, the most octets of one
/// read, and the reads that are left.
#[derive(Drop)]
pub struct Intake {
    framer: Framer,
    /// Room for one piece: there is some.
    buffer: Vec<u8>,
    /// The most octets of one read. The room is never wider.
    most: usize,
    /// The reads that are left.
    turns: u64,
}

impl Model for Intake {
    ghost use Rattle.std.specs.Prelude.{◌<◌, ◌≤◌, length};
    ghost use Rattle.ipfix_reader.specs.Intake.{IntakeState};

    ghost Value = { IntakeState };

    ghost view = { λ i. record { framing = i.framer; most = i.most; turns = i.turns } };

    ghost invariant = { λ i. (0 < length i.buffer.items) × (length i.buffer.items ≤ i.most) };
}

impl Intake {
    /// An intake at the start of a stream, which makes at most `turns` reads, each of at most 65,536 octets. It takes
    /// memory from `alloc`: room for a piece now, and what messages need as they are read.
    ///
    /// # Errors
    /// Want of memory.
    pub fn new(alloc: Global, turns: u64) -> Result<Intake, AllocError>
        ensures { IfOk result (λ i. i ≡ nothing_read 65536 turns) }
    {
        Ok(Intake {
            framer: Framer::new(alloc),
            buffer: Vec::from_elem(alloc, 0, PIECE)?,
            most: PIECE,
            turns,
        })
    }

    /// An intake as of [`Intake::new`], but that widens: its first read brings at most 65,536 octets, and after each
    /// read that brought as much as it could the next one may bring twice as much, up to 262,144 octets. Room that finds
    /// no memory in `alloc` then stays as it is. `turns` is the most reads.
    ///
    /// # Errors
    /// Want of memory.
    pub fn widening(alloc: Global, turns: u64) -> Result<Intake, AllocError>
        ensures { IfOk result (λ i. i ≡ nothing_read 262144 turns) }
    {
        Ok(Intake {
            framer: Framer::new(alloc),
            buffer: Vec::from_elem(alloc, 0, PIECE)?,
            most: WIDEST,
            turns,
        })
    }

    /// Reads from `reader` once more, and hands out the messages that became whole by it, which may be none; or answers
    /// `None` where the stream has ended and no message was begun. A message begins directly where the one before it
    /// ends (RFC 7011, sections 3.1 and 10.4). The messages of one call share one block of memory. `reader` is the same
    /// at each call.
    ///
    /// # Errors
    /// - [`Fault::Read`]: the reader failed. Nothing was read.
    /// - [`Fault::Framing`]: the stream is faulty. All messages before the fault were handed out by then, and
    ///   each later call answers this too. With `CutOff` the stream ended inside a message.
    /// - [`Fault::Turns`]: no read is left. Nothing was read.
    /// - [`Fault::OutOfMemory`]: what was read last is lost.
    pub fn next<R: Source>(&mut self, reader: &mut R) -> Result<Option<Vec<Bytes>>, Fault>
        ensures ok { IfOk result (λ found. MatchOption found
            (Ends self.old (R.remaining reader.old) (R.remaining reader.new) self.new) (λ out.
            Yields self.old (R.remaining reader.old) (R.remaining reader.new) out.items self.new)) }
        ensures sound { OnOk result (R.has_failed reader.new ≡ R.has_failed reader.old) }
        ensures fails { IfErr result (λ e.
            R.has_failed reader.new ≡ reader_after e (R.has_failed reader.old)) }
        ensures err { IfErr result (λ e.
            StopsIntake e self.old (R.remaining reader.old) (R.remaining reader.new) self.new) }
    {
        if let Some(fault) = self.framer.fault() {
            return Err(stream_fault(fault));
        }
        if self.turns == 0 {
            return Err(Fault::Turns);
        }
        self.turns -= 1;
        let count = read_piece(reader, &mut self.buffer)?;
        if count == 0 {
            return self.end();
        }
        let fed = self.framer.feed(&self.buffer.as_slice()[..count]);
        if count == self.buffer.len() {
            widen(&mut self.buffer, self.most);
        }
        match fed {
            Ok(messages) => Ok(Some(messages)),
            Err(fault) => Err(stream_fault(fault)),
        }
    }

    /// The answer where the stream has ended: `None` where no message was begun.
    ///
    /// # Errors
    /// `CutOff` where the stream ended inside a message.
    fn end(&self) -> Result<Option<Vec<Bytes>>, Fault>
        ensures ok { IfOk result (λ found. (is_none found ≡ true)
            × (self.now.framing.pending ≡ [])) }
        ensures err { IfErr result (λ e. (e ≡ Framing CutOff)
            × (0 < length self.now.framing.pending)) }
    {
        if self.framer.pending() == 0 {
            Ok(None)
        } else {
            Err(Fault::Framing(FramingFault::CutOff))
        }
    }
}

ghost use Rattle.std.specs.Prelude.{true, is_none};
ghost use Rattle.std.specs.Io.KnownBytes.{Keeps};
ghost use Rattle.ipfix_reader.specs.declared.fault.Fault.TheVariants.{Read, Framing};
ghost use Rattle.ipfix_reader.specs.declared.fault.FramingFault.TheVariants.{CutOff};
ghost use Rattle.ipfix_reader.specs.Intake.{intake_fault};

/// Reads octets from `reader` into the front of `buffer`, which has some, and answers how many: none only at the end.
///
/// # Errors
/// `Read` where the reader failed, and nothing was read.
fn read_piece<R: Source>(reader: &mut R, buffer: &mut Vec<u8>) -> Result<usize, Fault>
    requires { 0 < length buffer.old.items }
    // Octets are read into the front of the buffer, and none only at the end.
    ensures length { length buffer.new.items ≡ length buffer.old.items }
    ensures ok { IfOk result (λ n. (n ≤ length buffer.new.items)
        × Consumes (R.remaining reader.old) (R.remaining reader.new) (take n buffer.new.items)) }
    ensures end { IfOk result (λ n. n ≡ 0 → IsAtEnd (R.remaining reader.new)) }
    ensures stays { OnOk result (R.has_failed reader.new ≡ R.has_failed reader.old) }
    // A read that failed gave none.
    ensures err { IfErr result (λ e. (e ≡ Read)
        × Keeps (R.remaining reader.old) (R.remaining reader.new)
        × (R.has_failed reader.new ≡ true)) }
{
    match reader.read(buffer.as_mut_slice()) {
        Ok(count) => Ok(count),
        Err(Failed) => Err(Fault::Read),
    }
}

/// Gives `buffer` twice as much room, and no more than `most`. It stays as it is where there is no memory.
fn widen(buffer: &mut Vec<u8>, most: usize)
    requires { length buffer.old.items ≤ most }
    ensures some { length buffer.old.items ≤ length buffer.new.items }
    ensures few { length buffer.new.items ≤ most }
{
    let room = buffer.len().saturating_mul(2).min(most);
    let _widened = buffer.resize(room, 0);
}

/// The fault of an intake for `fault`, the refusal of its framer. That refuses by `BadVersion`, `BadLength` and
/// `OutOfMemory` alone; in the others a length is wrong too.
fn stream_fault(fault: DecodeError) -> Fault
    ensures { result ≡ intake_fault fault }
{
    match fault {
        DecodeError::BadVersion => Fault::Framing(FramingFault::BadVersion),
        DecodeError::BadLength
        | DecodeError::ShortHeader
        | DecodeError::BadSetLength
        | DecodeError::TemplateOverrun => Fault::Framing(FramingFault::BadLength),
        DecodeError::OutOfMemory => Fault::OutOfMemory,
    }
}
