//! Laws of framing, each the contract of a function that does nothing.
ghost use Rattle.std.specs.Prelude.{ℕ, List};
ghost use Rattle.ipfix_message.specs.Framing.{IsFramedOnce};
ghost use Rattle.ipfix_message.specs.Feeds.{IsFramedByPieces, IsSameInAnyPieces};

/// A stream has one framing: one list of messages, one fault or none, and one rest that is pending.
pub fn one_framing()
    ensures { (octets : List ℕ) → IsFramedOnce octets }
{}

/// Whatever the pieces that a `Framer` is fed: the messages that it answered, its fault and the octets
/// that are pending are those of the pieces joined, but for pieces that were refused for want of memory.
/// So they are the same in whatever way a stream is cut into pieces. What follows a fault changes none.
pub fn any_pieces()
    ensures framed { IsFramedByPieces }
    ensures same { IsSameInAnyPieces }
{}
