//! The question that is asked of a journal.

/// What is asked of a journal: of which subscription, and of which records, it is to be said what the subscription saw.
#[derive(Clone, Copy, Debug, PartialEq, Eq)]
pub struct Question {
    /// The number of the subscription, from 1.
    pub sub: u64,
    /// The position of the message among the journal's entries, from 0. None: of each message.
    pub position: Option<u64>,
    /// The place of the record in its message, from 0. None: of each record.
    pub index: Option<u32>,
}

impl Question {
    ghost use Rattle.std.specs.Prelude.{◌≡◌};
    ghost use Rattle.ipmd_explain.specs.Explaining.{is_asked};

    /// Whether the message at `position` is asked for.
    pub(crate) fn asks_message(&self, position: u64) -> bool
        ensures { result ≡ is_asked self.now.position position }
    {
        match self.position {
            Some(asked) => asked == position,
            None => true,
        }
    }

    /// Whether the record at the place `index` of its message is asked for.
    pub(crate) fn asks_record(&self, index: usize) -> bool
        ensures { result ≡ is_asked self.now.index index }
    {
        match self.index {
            Some(asked) => asked as usize == index,
            None => true,
        }
    }

    ghost use Rattle.ipmd_explain.specs.Explaining.{is_within};

    /// Whether a message of `records` records has one that is asked for, or all are.
    pub(crate) fn is_within(&self, records: usize) -> bool
        ensures { result ≡ is_within self.now.index records }
    {
        match self.index {
            Some(asked) => (asked as usize) < records,
            None => true,
        }
    }
}
