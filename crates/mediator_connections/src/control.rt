//! What a connection asks of its server and tells it, beyond the calls on the mediator.

use admin_text::Topic;
use mediator_state::Receipt;
use shared_mediator::KeptEntry;
use std::alloc::AllocError;

/// How long a call waits for room in a queue before it is made, and cuts the subscription whose queue has none.
pub trait Patience {
    /// Whether a call waits for room at all. Where it doesn't, [`wait`](Patience::wait) isn't asked.
    fn has_any(&self) -> bool;

    /// Waits a moment, and answers whether to look for room once more. `waits` is how often one call has waited before: 0 for its
    /// first wait.
    fn wait(&self, waits: u64) -> bool;
}

/// What an administrator may ask of a server.
pub trait Control: Patience {
    /// The run is to end: no more exporters are taken, those that are connected end behind the message in hand, and what is
    /// queued is sent.
    fn stop(&self);

    /// A call of the administrator was accepted, and `receipt` is the entry that it added to the journal, with its position.
    fn accept(&self, receipt: &KeptEntry);

    /// The lines of the page on `topic`, for an administrator whose calls have had these `receipts`, in order.
    ///
    /// # Errors
    /// Want of memory. The administrator is then answered that the call was refused for it.
    fn tell(&self, topic: Topic, receipts: &[KeptEntry]) -> Result<Vec<u8>, AllocError>;
}

/// What a server is told of an exporter's stream while it is read.
pub trait Reception: Patience {
    /// A message of `octets` octets was accepted, and `receipt` says what became of it.
    fn accept(&self, receipt: &Receipt, octets: usize);
}
