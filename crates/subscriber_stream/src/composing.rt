//! What the octets of a message are put into.
ghost use Rattle.std.specs.Prelude.{◌≡◌, ◌≤◌, ◌++◌, ℕ, List, length, take, OnOk};
ghost use Rattle.std.specs.List.{concat};

use crate::message_pieces::{MessagePieces, Piece};
use crate::texts::Texts;
use bytes::Bytes;
use std::alloc::AllocError;

/// What the octets of a message are put into, one part after another.
pub(crate) trait Composes {
    // The octets that were put into it.
    ghost composed: { Self → List ℕ };

    /// Puts a message header behind what is there.
    ///
    /// # Errors
    /// Want of memory.
    fn put_header(&mut self, header: [u8; 16]) -> Result<(), AllocError>
        ensures { OnOk result (composed self.new ≡ composed self.old ++ header) };

    /// Puts the header of a set behind what is there.
    ///
    /// # Errors
    /// Want of memory.
    fn put_set_header(&mut self, header: [u8; 4]) -> Result<(), AllocError>
        ensures { OnOk result (composed self.new ≡ composed self.old ++ header) };

    /// Puts a template record behind what is there.
    ///
    /// # Errors
    /// Want of memory.
    fn put_template(&mut self, octets: Vec<u8>) -> Result<(), AllocError>
        ensures { OnOk result (composed self.new ≡ composed self.old ++ octets.items) };

    /// Puts the first `count` of `texts` behind what is there.
    ///
    /// # Errors
    /// Want of memory.
    fn put_texts(&mut self, texts: &Texts, count: usize) -> Result<(), AllocError>
        requires { count ≤ length texts.now }
        ensures { OnOk result (composed self.new ≡ composed self.old ++ concat (take count texts.now)) };
}

impl Composes for Vec<u8> {
    ghost composed = { λ v. v.items };

    fn put_header(&mut self, header: [u8; 16]) -> Result<(), AllocError> {
        self.extend_from_slice(&header)
    }

    fn put_set_header(&mut self, header: [u8; 4]) -> Result<(), AllocError> {
        self.extend_from_slice(&header)
    }

    fn put_template(&mut self, octets: Vec<u8>) -> Result<(), AllocError> {
        self.extend_from_slice(octets.as_slice())
    }

    fn put_texts(&mut self, texts: &Texts, count: usize) -> Result<(), AllocError> {
        self.extend_from_slice(texts.front(count))
    }
}

impl Composes for MessagePieces {
    ghost composed = { λ m. m };

    fn put_header(&mut self, header: [u8; 16]) -> Result<(), AllocError> {
        self.push(Piece::Header(header))
    }

    fn put_set_header(&mut self, header: [u8; 4]) -> Result<(), AllocError> {
        self.push(Piece::SetHeader(header))
    }

    fn put_template(&mut self, octets: Vec<u8>) -> Result<(), AllocError> {
        self.push(Piece::Shared(Bytes::from_vec(octets)?))
    }

    fn put_texts(&mut self, texts: &Texts, count: usize) -> Result<(), AllocError> {
        self.push(Piece::Shared(texts.shared_front(count)?))
    }
}
