//! The clock by which messages to collectors are stamped.
ghost use Rattle.std.specs.Prelude.{ℕ};

/// What tells the Export Times of messages.
pub trait Clock {
    // Whether the clock may show this number.
    ghost shows: { Self → ℕ → Type 0 };

    /// The time in seconds since 1970, modulo 2^32: as a message's header has it (RFC 7011, section 3.1).
    fn now(&self) -> u32
        ensures { shows self.now result };
}
