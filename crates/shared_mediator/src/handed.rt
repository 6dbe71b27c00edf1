//! What a pull of a counted mediator hands out.

use subscriber_stream::MessagePieces;

/// A message that was handed out to a subscription.
#[derive(Drop)]
pub struct Handed {
    /// The octets of the message.
    pub message: MessagePieces,
    /// How many Data Records stand in it.
    pub records: u64,
}
