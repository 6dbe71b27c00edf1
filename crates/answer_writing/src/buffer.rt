//! A buffer of a fixed size, in which the octets of an answer wait until they are written.
ghost use Rattle.std.specs.Prelude.{◌≡◌, ◌+◌, ◌≤◌, ◌↔◌, ◌++◌, [], length, IfOk, IsTrue};
ghost use Rattle.std.specs.Fmt.{decimal};
ghost use Rattle.answer_writing.specs.Pieces.{most_octets, longest_piece, longest_number};

use itoa::Buffer;
use std::alloc::{AllocError, Global};
use std::marker::Model;

/// For how many octets a buffer has room.
const MOST_OCTETS: usize = 16_384;

/// The most octets of one piece of an answer.
const LONGEST_PIECE: usize = 128;

/// Room for 16,384 octets of an answer, which wait in it until they are written. Contracts see the octets that wait.
#[derive(Drop)]
pub struct AnswerBuffer {
    octets: Vec<u8>,
}

impl Model for AnswerBuffer {
    ghost use Rattle.std.specs.Prelude.{List, ℕ, ◌≤◌, vec_capacity};
    ghost use Rattle.answer_writing.specs.Pieces.{most_octets};

    ghost Value = { List ℕ };

    ghost view = { λ b. b.octets.items };

    ghost invariant = { λ b. most_octets ≤ vec_capacity b.octets };
}

impl AnswerBuffer {
    /// A buffer in which nothing waits, with all of its room in memory from `alloc`.
    ///
    /// # Errors
    /// Want of memory for the room.
    pub fn new(alloc: Global) -> Result<AnswerBuffer, AllocError>
        ensures { IfOk result (λ b. b ≡ []) }
    {
        Ok(AnswerBuffer {
            octets: Vec::with_capacity(alloc, MOST_OCTETS)?,
        })
    }

    /// The octets that wait, in their order.
    pub fn as_slice(&self) -> &[u8]
        ensures { result.now ≡ self.now }
    {
        self.octets.as_slice()
    }

    /// Whether one more piece has room: at least 128 octets.
    pub(crate) fn has_room(&self) -> bool
        ensures { IsTrue result ↔ (length self.now + longest_piece ≤ most_octets) }
    {
        self.octets.len() <= MOST_OCTETS - LONGEST_PIECE
    }

    /// Drops what waits. The room stays.
    pub fn clear(&mut self)
        ensures { self.new ≡ [] }
    {
        self.octets.clear();
    }

    /// Puts `octets` behind those that wait. The caller has seen to it that there is room for them: at most 16,384
    /// octets wait then. It takes no memory and can't fail.
    pub fn put(&mut self, octets: &[u8])
        requires room { length self.old + length octets.now ≤ most_octets }
        ensures added { self.new ≡ self.old ++ octets.now }
        ensures longer { length self.new ≡ length self.old + length octets.now }
    {
        match self.octets.extend_from_slice(octets) {
            Ok(()) => {}
            Err(AllocError) => unreachable!(),
        }
    }

    /// Puts the decimal digits of `number` behind what waits. The caller has seen to it that there is room for 20
    /// octets, which is as long as a number of 64 bits may be.
    pub fn put_number(&mut self, number: u64)
        requires room { length self.old + longest_number ≤ most_octets }
        ensures added { self.new ≡ self.old ++ decimal number }
        ensures longer { length self.new ≤ length self.old + longest_number }
        ensures kept { length self.old ≤ length self.new }
    {
        let mut digits = Buffer::new();
        self.put(digits.format(number).as_bytes());
    }
}
