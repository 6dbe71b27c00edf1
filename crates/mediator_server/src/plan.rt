//! The plan of a server's run: where it is reached, what it begins with, and to whom it delivers.

use mediator_calls::Limits;
use mediator_connections::Collector;

/// How a server is to serve in a run: where it is reached, what it begins with, and to whom it delivers.
#[derive(Debug, Drop)]
pub struct RunPlan {
    /// The number of the run, as an administrator is told it.
    pub run: u64,
    /// The address and the port at which exporters connect.
    pub exporters: String,
    /// The address and the port at which the administrator connects.
    pub admin: String,
    /// The text of the first policy.
    pub policy: String,
    /// How many connections of exporters are accepted in a run; or, where it is endless, how many may be open at a time.
    pub connections: u64,
    /// Whether the run goes on when as many exporters have come as `connections` says: until it is stopped, or its journal is
    /// full.
    pub endless: bool,
    /// The most octets of a message to a collector, where messages can be so short.
    pub target: u16,
    /// The most reads of one connection.
    pub turns: u64,
    /// How many threads read an exporter's messages, 1 to 64.
    pub workers: u64,
    /// After how many seconds without an octet an exporter's connection is closed. None: never.
    pub idle: Option<u64>,
    /// After how many seconds a collector that refuses, doesn't answer or has gone is tried again. None: never, and one that is
    /// absent at the start ends the run.
    pub reconnect: Option<u64>,
    /// How many milliseconds at most a message, or an advance of the clock, waits for room in the queues before it cuts a
    /// subscription. None: it doesn't wait.
    pub hold: Option<u64>,
    /// How many seconds at most the end of the run waits for collectors to take what is queued. None: as long as they take it.
    pub drain: Option<u64>,
    /// The limits of the mediator, of which it is warned when they are nearly met.
    pub limits: Limits,
    /// To whom is delivered, in the order in which they are subscribed.
    pub deliver: Vec<Collector>,
}
