//! Gathering the octets of one entry from a source, and none past them.
ghost use Rattle.std.specs.Prelude.{◌≡◌, ◌+◌, ◌<◌, ◌≤◌, true, length, vec_len, OnOk, OnErr, IfOk, IfErr, IfSome};
ghost use Rattle.std.specs.Io.KnownBytes.{IsAtEnd};
ghost use Rattle.journal_files.specs.Gathering.{Gathers, IsFilled, Skips};
ghost use Rattle.journal_files.specs.Streaming.{FailsToGather, Loses};

use crate::fault::Fault;
use crate::format::{EDIT, MESSAGE, SUBSCRIBE};
use event_journal::MOST_OCTETS;
use ipfix_octets::be_number;
use octet_io::{Failed, Source};

/// The most octets of one read.
const PIECE: usize = 65_536;

/// Reads octets of `source` to behind those in `held`, until that has `wanted` octets, and answers whether it has. It
/// reads no octet past them, and `false` comes only at the source's end. `piece` is where each read puts its octets
/// first, at most 65,536 at a time.
///
/// # Errors
/// The source failed, or want of memory. In both cases octets may have been read that are lost.
pub(crate) fn fill<R: Source>(
    source: &mut R,
    wanted: usize,
    piece: &mut Vec<u8>,
    held: &mut Vec<u8>,
) -> Result<bool, Fault>
    requires { vec_len held.old ≤ wanted }
    // What was read stands behind what was held: as much as is wanted, or all up to the end of the source.
    ensures gathers { OnOk result
        (Gathers (R.remaining source.old) (R.remaining source.new) held.old.items held.new.items) }
    ensures filled { IfOk result (λ whole.
        IsFilled whole wanted held.new.items (R.remaining source.new)) }
    ensures stays { OnOk result (R.has_failed source.new ≡ R.has_failed source.old) }
    // At a fault octets may be lost, and it is told why.
    ensures loses { OnErr result (Loses (R.remaining source.old) (R.remaining source.new)) }
    ensures err { IfErr result (λ e.
        FailsToGather e (R.has_failed source.old) (R.has_failed source.new)) }
{
    'reads: while held.len() < wanted {
        let room = (wanted - held.len()).min(PIECE);
        let count = read_piece(source, room, piece, held)?;
        if count == 0 {
            return Ok(false);
        }
    }
    Ok(true)
}

/// Reads once from `source` into `piece`, and puts what came, at most `room` octets, behind those in `held`. It answers
/// how many octets came: none only at the source's end.
///
/// # Errors
/// The source failed, or want of memory. In both cases octets may have been read that are lost.
fn read_piece<R: Source>(
    source: &mut R,
    room: usize,
    piece: &mut Vec<u8>,
    held: &mut Vec<u8>,
) -> Result<usize, Fault>
    requires some { 0 < room }
    // What was read stands behind what was held, and there is none only at the end of the source.
    ensures gathers { OnOk result
        (Gathers (R.remaining source.old) (R.remaining source.new) held.old.items held.new.items) }
    ensures count { IfOk result (λ n. (vec_len held.new ≡ vec_len held.old + n) × (n ≤ room)) }
    ensures end { IfOk result (λ n. n ≡ 0 → IsAtEnd (R.remaining source.new)) }
    ensures stays { OnOk result (R.has_failed source.new ≡ R.has_failed source.old) }
    // At a fault octets may be lost, and it is told why.
    ensures loses { OnErr result (Loses (R.remaining source.old) (R.remaining source.new)) }
    ensures err { IfErr result (λ e.
        FailsToGather e (R.has_failed source.old) (R.has_failed source.new)) }
{
    piece.resize(room, 0)?;
    match source.read(piece.as_mut_slice()) {
        Ok(count) => {
            held.extend_from_slice(&piece.as_slice()[..count])?;
            Ok(count)
        }
        Err(Failed) => Err(Fault::Read),
    }
}

ghost use Rattle.std.specs.Prelude.{List, ℕ, [], ◌∷◌, ◌^◌, slice_index};
ghost use Rattle.event_journal.specs.declared.limits.TheConstants.{MOST_OCTETS};
ghost use Rattle.journal_files.specs.Gathering.{front_octets, announced};
ghost use Rattle.journal_files.specs.Streaming.{FilePlace, IsGathered, StopsReadingFile, next_entry_of};

/// Reads into `held`, which is empty, the octets of the next entry of `source`, and none past them; or fewer where the
/// source ends before, or where they are of no entry. `piece` is where each read puts its octets first.
///
/// # Errors
/// The source failed; or want of memory; or the entry announces more octets than a journal may have: then these are
/// read and not held, so that the fault is `BadEntry` where they are there, and `Truncated` where the source ends
/// before.
pub(crate) fn gather<R: Source>(
    source: &mut R,
    piece: &mut Vec<u8>,
    held: &mut Vec<u8>,
) -> Result<(), Fault>
    requires { held.old.items ≡ [] }
    // What was read are the octets of one entry, or of none.
    ensures gathers { OnOk result
        (Gathers (R.remaining source.old) (R.remaining source.new) [] held.new.items) }
    ensures gathered { OnOk result (IsGathered held.new.items (R.remaining source.new)) }
    ensures stays { OnOk result (R.has_failed source.new ≡ R.has_failed source.old) }
    // At a fault octets may be lost, or they show why they are of no file.
    ensures err { IfErr result (λ e. (place : FilePlace)
        → StopsReadingFile e (next_entry_of place) (R.remaining source.old) (R.remaining source.new)
        (R.has_failed source.old) (R.has_failed source.new)) }
{
    if !fill(source, 1, piece, held)? {
        return Ok(());
    }
    let kind = held[0];
    let Some(front) = front_of_kind(kind) else {
        return Ok(());
    };
    if !fill(source, front, piece, held)? {
        return Ok(());
    }
    let more = announced_by(kind, held.as_slice());
    if more > MOST_OCTETS {
        return Err(skip(source, more, piece)?);
    }
    fill(source, front + more as usize, piece, held)?;
    Ok(())
}

/// How many octets an entry of this `kind` has before the message, text or name whose length it announces, or `None`
/// where there is no such kind.
#[tactic(auto, unfolding(crate::specs::Gathering::front_octets))]
fn front_of_kind(kind: u8) -> Option<usize>
    ensures value { result ≡ front_octets kind }
    ensures few { IfSome result (λ n. (1 ≤ n) × (n ≤ 21)) }
{
    match kind {
        MESSAGE => Some(21),
        SUBSCRIBE => Some(10),
        1..=8 => Some(9),
        _ => None,
    }
}

/// The length that an entry of this `kind` announces in its `front`: the octets of its message, text or name, or 0
/// where it has none.
#[tactic(auto, unfolding(crate::specs::Gathering::announced, crate::specs::Gathering::front_octets))]
fn announced_by(kind: u8, front: &[u8]) -> u64
    requires { IfSome (front_octets kind) (λ n. n ≤ length front.now) }
    ensures value { result ≡ announced kind front.now }
    // Of such lengths an edit's alone has more than 32 bits.
    ensures long { 2 ^ 32 ≤ result → kind ≡ 4 }
{
    match kind {
        MESSAGE => be_number(&front[17..21]),
        EDIT => be_number(&front[1..9]),
        SUBSCRIBE => be_number(&front[9..10]),
        _ => 0,
    }
}

/// Reads `count` octets of `source` and keeps none, and answers which fault an entry has that is so long: `BadEntry`,
/// since it is past the limits, or `Truncated`, where the source ends before. `piece` is where each read puts its
/// octets.
///
/// # Errors
/// The source failed, or want of memory. In both cases octets may have been read that are lost.
fn skip<R: Source>(source: &mut R, count: u64, piece: &mut Vec<u8>) -> Result<Fault, Fault>
    ensures skips { IfOk result (λ fault.
        Skips fault count (R.remaining source.old) (R.remaining source.new)) }
    ensures stays { OnOk result (R.has_failed source.new ≡ R.has_failed source.old) }
    ensures loses { OnErr result (Loses (R.remaining source.old) (R.remaining source.new)) }
    ensures err { IfErr result (λ e.
        FailsToGather e (R.has_failed source.old) (R.has_failed source.new)) }
{
    let mut left = count;
    'pieces: while left > 0 {
        let room = left.min(PIECE as u64) as usize;
        piece.resize(room, 0)?;
        match source.read(piece.as_mut_slice()) {
            Ok(0) => return Ok(Fault::Truncated),
            Ok(read) => left -= read as u64,
            Err(Failed) => return Err(Fault::Read),
        }
    }
    Ok(Fault::BadEntry)
}
