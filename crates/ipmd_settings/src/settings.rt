//! The settings of `ipmd serve`, as values.

use mediator_calls::Limits;
use mediator_connections::Collector;

/// How `ipmd serve` is to run.
#[derive(Debug, Drop)]
pub struct Settings {
    /// The address and the port at which exporters connect.
    pub exporters: String,
    /// The address and the port at which the admin connects.
    pub admin: String,
    /// The path of the file with the first policy.
    pub policy: String,
    /// How many connections of exporters are accepted in a run, 1 to 1,000.
    pub connections: u32,
    /// How many octets a message to a collector may have, 16 to 65,535.
    pub target: u16,
    /// How many threads read an exporter's messages, 1 to 64.
    pub workers: u64,
    /// What the mediator may hold.
    pub limits: Limits,
    /// The most reads of a connection, 1 to 1,000,000,000.
    pub turns: u64,
    /// The collectors, in the order of their subscribers' octets.
    pub collectors: Vec<Collector>,
    /// The path under which a run's journal is written: that of run 2 is this with `.2` behind it. None: none is written.
    pub journal: Option<String>,
    /// How many runs may follow each other, 1 to 1,000.
    pub runs: u64,
    /// After how many seconds without an octet an exporter's connection is closed, 1 to 86,400. None: never.
    pub idle: Option<u64>,
    /// After how many seconds a collector that refuses or has gone is tried again, 1 to 3,600. None: never.
    pub reconnect: Option<u64>,
    /// How many milliseconds at most a message waits for room in the queues, 1 to 60,000. None: it doesn't wait.
    pub hold: Option<u64>,
    /// How many seconds at most the end of a run waits for collectors, 1 to 86,400. None: as long as they take what is queued.
    pub drain: Option<u64>,
    /// Whether a run goes on when as many exporters have come as are accepted. Then `connections` says how many may be open at a
    /// time.
    pub endless: bool,
}
