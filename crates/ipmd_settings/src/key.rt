//! The keys of the settings.

use std::fmt::{self, Display, Formatter, Write};

/// A key of settings, in the order in which they are judged. Those from `Journal` on may be absent, the others must be
/// there. Its text is the key as the settings have it.
#[derive(Clone, Copy, Debug, PartialEq, Eq)]
pub enum Key {
    /// Where exporters connect.
    Exporters,
    /// Where the admin connects.
    Admin,
    /// The file with the first policy.
    Policy,
    /// How many connections of exporters are accepted, or may be open at a time where a run is endless.
    Connections,
    /// How long a message to a collector may be.
    Target,
    /// How many threads read an exporter's messages.
    Workers,
    /// The records that may wait for a subscription.
    Queue,
    /// The distinct templates of a subscription's records.
    Shapes,
    /// The audit entries that may wait.
    Audit,
    /// The entries of the journal.
    JournalEntries,
    /// The octets that the journal's entries count for.
    JournalOctets,
    /// The reads of a connection.
    Turns,
    /// The subscribers, and where their collectors listen.
    Deliver,
    /// The path under which a run's journal is written.
    Journal,
    /// How many runs may follow each other.
    Runs,
    /// How long an exporter may send nothing.
    Idle,
    /// How long it takes until a collector that has gone is tried again.
    Reconnect,
    /// How long a message waits for room in the queues.
    Hold,
    /// How long the end of a run waits for collectors.
    Drain,
    /// Whether a run goes on when as many exporters have come as are accepted.
    Endless,
}

impl Key {
    ghost use Rattle.std.specs.Prelude.{◌≡◌};
    ghost use Rattle.ipmd_settings.specs.Names.{key_name};

    /// The key as the settings have it.
    pub fn name(self) -> &'static str
        ensures { result.now ≡ key_name self }
    {
        match self {
            Key::Exporters => "exporters",
            Key::Admin => "admin",
            Key::Policy => "policy",
            Key::Connections => "connections",
            Key::Target => "target",
            Key::Workers => "workers",
            Key::Queue => "queue",
            Key::Shapes => "shapes",
            Key::Audit => "audit",
            Key::JournalEntries => "journal_entries",
            Key::JournalOctets => "journal_octets",
            Key::Turns => "turns",
            Key::Deliver => "deliver",
            Key::Journal => "journal",
            Key::Runs => "runs",
            Key::Idle => "idle",
            Key::Reconnect => "reconnect",
            Key::Hold => "hold",
            Key::Drain => "drain",
            Key::Endless => "endless",
        }
    }
}

impl Display for Key {
    ghost use Rattle.std.specs.Prelude.{Option, Some};
    ghost use Rattle.ipmd_settings.specs.Names.{key_name};

    ghost output = { λ key. Some (key_name key) };

    fn fmt<W: Write>(&self, f: &mut Formatter<W>) -> fmt::Result {
        f.write_str(self.name())
    }
}
