//! A live subscription, with its stream of records.

use policy_text::Name;
use subscriber_stream::Stream;

/// A live subscription: one that began and did not end.
#[derive(Drop)]
pub struct Subscription {
    /// Its subscriber's name.
    pub name: Name,
    /// Whether it was cut: then it is given nothing more, and what waits can still be pulled.
    pub is_cut: bool,
    /// The records that it was given, of which some may wait.
    pub stream: Stream,
}
