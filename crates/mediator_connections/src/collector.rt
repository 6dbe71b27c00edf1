//! A collector: the program to which a subscription's messages are sent.

/// A subscriber, and where its messages are sent: the address of a Collecting Process (RFC 7011, section 2).
#[derive(Debug, Drop)]
pub struct Collector {
    /// The subscriber's name. Whether a policy may have it, is for `subscribe` to judge.
    pub subscriber: String,
    /// The address and the port at which the collector listens.
    pub address: String,
}
