//! One thing that a mediator accepted, with the octets that it takes in a journal's file.
ghost use Rattle.std.specs.Prelude.{◌≡◌, ◌<◌, ◌+◌, ◌↔◌, ◌^◌, IsTrue};
ghost use Rattle.event_journal.specs.Sizes.{entry_octets};
ghost use Rattle.event_journal.specs.Spelled.{IsSpelled};

use crate::text::PolicyText;
use bytes::Bytes;
use policy_text::Name;

/// The octets of an entry's kind.
const KIND: u64 = 1;

/// The octets of each number, as of a session or a time.
const NUMBER: u64 = 8;

/// The octets of a message's entry before the message: its session, its number, and 4 octets of length.
const BEFORE_MESSAGE: u64 = KIND + 2 * NUMBER + 4;

/// The octets of an edit's entry before the text: 8 octets of length.
const BEFORE_TEXT: u64 = KIND + 8;

/// The octets of a subscription's entry before the name: its number, and one octet of length.
const BEFORE_NAME: u64 = KIND + NUMBER + 1;

/// The octets of the longest message whose length has 4 octets.
const LONGEST_MESSAGE: u64 = u32::MAX as u64;

/// One thing that a mediator accepted. `session` is the number of a session and `sub` that of a subscription; both
/// count from 1, and no number comes again.
#[derive(Debug, Drop, PartialEq, Eq)]
pub enum Entry {
    /// An exporter's session begins.
    Open {
        session: u64,
    },
    /// A session ends.
    Close {
        session: u64,
    },
    /// A message of a session. `number` is how many messages the session had before it, and `octets` is the whole
    /// message, which is shared with whoever handed it in.
    Message {
        session: u64,
        number: u64,
        octets: Bytes,
    },
    /// A policy comes into force. `text` is the policy as it was handed in.
    Edit {
        text: PolicyText,
    },
    /// A subscription begins, under the subscriber's `name`.
    Subscribe {
        sub: u64,
        name: Name,
    },
    /// A subscription ends.
    Unsubscribe {
        sub: u64,
    },
    /// The clock is moved to `t`, in milliseconds since 1970-01-01 00:00 UTC.
    Advance {
        t: u64,
    },
    /// A subscription is cut, since its limits left no room for what came next: it is given nothing more.
    Cut {
        sub: u64,
    },
}

impl Entry {
    /// The octets that the entry takes in a journal's file: 1 for its kind, 8 for each number, 4, 8 or 1 for the length
    /// of a message, a text or a name, and that message, text or name itself.
    pub fn octets(&self) -> u64
        ensures value { result ≡ entry_octets self.now }
        // Octets in memory are fewer than 2^63.
        ensures below { result < 2 ^ 63 + 21 }
    {
        match self {
            Entry::Open { .. }
            | Entry::Close { .. }
            | Entry::Unsubscribe { .. }
            | Entry::Advance { .. }
            | Entry::Cut { .. } => KIND + NUMBER,
            Entry::Message { octets, .. } => BEFORE_MESSAGE + octets.len() as u64,
            Entry::Edit { text } => BEFORE_TEXT + text.as_str().len() as u64,
            Entry::Subscribe { name, .. } => BEFORE_NAME + name.as_bytes().len() as u64,
        }
    }

    /// Whether a journal file can spell the entry: each entry but a message of 2^32 octets or more, whose length has no
    /// room there.
    pub fn is_spelled(&self) -> bool
        ensures { IsTrue result ↔ IsSpelled self.now }
    {
        match self {
            Entry::Message { octets, .. } => octets.len() as u64 <= LONGEST_MESSAGE,
            Entry::Open { .. }
            | Entry::Close { .. }
            | Entry::Edit { .. }
            | Entry::Subscribe { .. }
            | Entry::Unsubscribe { .. }
            | Entry::Advance { .. }
            | Entry::Cut { .. } => true,
        }
    }
}
