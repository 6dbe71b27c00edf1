//! A stream of octets, cut into IPFIX messages as its octets come (RFC 7011, sections 3.1 and 10.4).
ghost use Rattle.std.specs.Prelude.{◌≡◌, [], length, None, IsSome, IfSome, IfOk, IfErr};
ghost use Rattle.ipfix_message.specs.Framing.{EndsStream};
ghost use Rattle.ipfix_message.specs.FramerState.{nothing_fed, FeedGoesOn, FailsBy};

use crate::fault::Fault;
use bytes::Bytes;
use std::alloc::Global;
use std::marker::Model;

mod cut;
mod scan;

use cut::take_messages;
use scan::extent_of;

/// Cuts a stream of octets into whole messages, whatever the pieces that it comes in.
///
/// A message begins directly where the one before it ends, and its header says its length (RFC 7011,
/// sections 3.1 and 10.4). So after a fault nobody knows where the next message begins: the stream is over.
#[derive(Debug, Drop)]
pub struct Framer {
    /// The octets of a message that isn't whole yet; none after a fault.
    held: Vec<u8>,
    /// What ended the stream. Want of memory ends none.
    fault: Option<Fault>,
}

impl Model for Framer {
    ghost use Rattle.ipfix_message.specs.FramerState.{FramerState, IsFramerState};

    ghost Value = { FramerState };

    ghost view = { λ f. record { fault = f.fault; pending = f.held.items } };

    ghost invariant = { λ f. IsFramerState (record { fault = f.fault; pending = f.held.items }) };
}

impl Framer {
    /// A framer at the start of a stream. It takes memory from `alloc` as pieces are fed.
    pub fn new(alloc: Global) -> Framer
        ensures { result ≡ nothing_fed }
    {
        Framer {
            held: Vec::new(alloc),
            fault: None,
        }
    }

    /// The messages that become whole with `piece`, the next octets of the stream, in their order
    /// (RFC 7011, sections 3.1 and 10.4). The messages of one call share one block of memory. A
    /// call takes time in proportion to its octets.
    ///
    /// A fault is judged as soon as the first 4 octets of a header are there. Where messages became
    /// whole before the fault, the answer is these messages; [`fault`](Framer::fault) shows the
    /// fault at once.
    ///
    /// # Errors
    /// - `BadVersion` where a header's version isn't 10, and else `BadLength` where its length is
    ///   less than the 16 octets of a header. Each comes where no message became whole before it in
    ///   this call. It ends the stream: every later call answers it.
    /// - `OutOfMemory` for want of memory. The piece is then no part of the stream, and nothing has
    ///   changed.
    ///
    /// # Examples
    ///
    /// A message that comes in two pieces is whole with the second one:
    ///
    /// ```rust
    /// use ipfix_message::Framer;
    ///
    /// // A message without sets: a header with the version 10 and the length 16.
    /// let whole: &[u8] = b"\x00\x0a\x00\x10\x65\x53\xf1\x00\x00\x00\x00\x00\x00\x00\x00\x07";
    /// let mut framer = Framer::new(alloc);
    /// let first = framer.feed(b"\x00\x0a\x00\x10\x65\x53\xf1")?;
    /// assert!(rt; first.is_empty());
    /// assert!(rt; framer.pending() == 7);
    /// let second = framer.feed(b"\x00\x00\x00\x00\x00\x00\x00\x00\x07")?;
    /// assert!(rt; second.len() == 1);
    /// for message in &second {
    ///     assert!(rt; message.as_slice() == whole);
    /// }
    /// ```
    pub fn feed(&mut self, piece: &[u8]) -> Result<Vec<Bytes>, Fault>
        ensures ok { IfOk result (λ out. FeedGoesOn self.old piece.now out.items self.new) }
        // No answer without messages hides a fault.
        ensures clear { IfOk result (λ out. out.items ≡ [] → self.new.fault ≡ None) }
        ensures err { IfErr result (λ e. FailsBy e self.old piece.now self.new) }
    {
        if let Some(fault) = self.fault {
            return Err(fault);
        }
        let before = self.held.len();
        self.held.extend_from_slice(piece)?;
        let extent = extent_of(self.held.as_slice());
        let Ok(messages) = take_messages(&mut self.held, extent.whole, piece.len()) else {
            self.held.truncate(before);
            return Err(Fault::OutOfMemory);
        };
        let Some(fault) = extent.fault else {
            return Ok(messages);
        };
        self.fault = Some(fault);
        self.held.clear();
        if messages.is_empty() {
            return Err(fault);
        }
        Ok(messages)
    }

    /// The fault that ended the stream, once it is there: `BadVersion` or `BadLength`. Want of memory ends no stream.
    pub fn fault(&self) -> Option<Fault>
        ensures value { result ≡ self.now.fault }
        ensures of_stream { IfSome result EndsStream }
    {
        self.fault
    }

    /// How many octets of a message that isn't whole yet were fed. After a fault it is 0.
    pub fn pending(&self) -> usize
        ensures value { result ≡ length self.now.pending }
        ensures emptied { IsSome self.now.fault → result ≡ 0 }
    {
        self.held.len()
    }
}
