//! Messages in pieces, so that the octets of their records needn't be copied.
ghost use Rattle.std.specs.Prelude.{◌≡◌, ◌≤◌, ◌<◌, ◌+◌, ◌^◌, ◌++◌, [], length, take, drop, IfOk, OnOk, OnErr};
ghost use Rattle.subscriber_stream.specs.MessagePieces.{piece_octets};

use bytes::Bytes;
use std::alloc::{AllocError, Global};
use std::marker::Model;

/// The most octets that all pieces may have. There is no memory for more.
const MOST_OCTETS: usize = isize::MAX as usize;

/// One piece.
#[derive(Drop)]
pub(crate) enum Piece {
    /// A message header (RFC 7011, section 3.1).
    Header([u8; 16]),
    /// The header of a set (RFC 7011, section 3.3.2).
    SetHeader([u8; 4]),
    /// Octets that others may have too.
    Shared(Bytes),
}

impl Piece {
    /// Its octets.
    fn as_slice(&self) -> &[u8]
        ensures { result.now ≡ piece_octets self.now }
    {
        match self {
            Piece::Header(octets) => octets,
            Piece::SetHeader(octets) => octets,
            Piece::Shared(octets) => octets.as_slice(),
        }
    }
}

/// A message in pieces, one after another. The octets of its records may be shared with what else has them, and then none is
/// copied before the message is sent. Contracts see its octets.
#[derive(Drop)]
pub struct MessagePieces {
    pieces: Vec<Piece>,
    /// How many octets they have.
    octets: usize,
}

impl Model for MessagePieces {
    ghost use Rattle.std.specs.Prelude.{◌≡◌, ◌<◌, ◌^◌, ℕ, List, length};
    ghost use Rattle.std.specs.List.{flat_map};
    ghost use Rattle.subscriber_stream.specs.MessagePieces.{piece_octets};

    ghost Value = { List ℕ };

    ghost view = { λ m. flat_map piece_octets m.pieces.items };

    ghost invariant = { λ m. (m.octets ≡ length (flat_map piece_octets m.pieces.items)) × (m.octets < 2 ^ 63) };
}

impl MessagePieces {
    /// No piece yet; the list of those to come is in memory from `alloc`.
    pub(crate) fn new(alloc: Global) -> MessagePieces
        ensures { result ≡ [] }
    {
        MessagePieces {
            pieces: Vec::new(alloc),
            octets: 0,
        }
    }

    /// A message in one piece.
    ///
    /// # Errors
    /// Want of memory for the list of pieces, in memory from `alloc`.
    pub(crate) fn whole(alloc: Global, message: Bytes) -> Result<MessagePieces, AllocError>
        ensures { IfOk result (λ m. m ≡ message) }
    {
        let mut whole = MessagePieces::new(alloc);
        whole.push(Piece::Shared(message))?;
        Ok(whole)
    }

    /// How many octets the message has.
    pub fn len(&self) -> usize
        ensures value { result ≡ length self.now }
        ensures few { result < 2 ^ 63 }
    {
        self.octets
    }

    /// Appends the octets of the message to `out`.
    ///
    /// # Errors
    /// Want of memory, and then some of them may be appended.
    pub fn append_to(&self, out: &mut Vec<u8>) -> Result<(), AllocError>
        ensures { OnOk result (out.new.items ≡ out.old.items ++ self.now) }
    {
        out.reserve(self.octets)?;
        'pieces: for piece in &self.pieces {
            out.extend_from_slice(piece.as_slice())?;
        }
        Ok(())
    }

    /// Octets of the message from the one at `start` on, counted from 0: as many as lie in one piece, one at least.
    pub fn chunk(&self, start: usize) -> &[u8]
        requires { start < length self.now }
        ensures some { 0 < length result.now }
        ensures part { result.now ≡ take (length result.now) (drop start self.now) }
    {
        let mut skip = start;
        'pieces: for piece in &self.pieces {
            let octets = piece.as_slice();
            if skip < octets.len() {
                return &octets[skip..];
            }
            skip -= octets.len();
        }
        unreachable!()
    }

    /// Puts `piece` behind the others.
    ///
    /// # Errors
    /// Want of memory, and then nothing has changed.
    pub(crate) fn push(&mut self, piece: Piece) -> Result<(), AllocError>
        ensures ok { OnOk result (self.new ≡ self.old ++ piece_octets piece) }
        ensures err { OnErr result (self.new ≡ self.old) }
    {
        let more = piece.as_slice().len();
        if more > MOST_OCTETS - self.octets {
            return Err(AllocError);
        }
        self.pieces.reserve(1)?;
        self.pieces.push_reserved(piece);
        self.octets += more;
        Ok(())
    }
}
