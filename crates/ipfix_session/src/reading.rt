//! What was read of a message, before it is kept.
ghost use Rattle.std.specs.Prelude.{◌≡◌};

use crate::changes::Changes;
use crate::read::{Gap, Read, Skips};
use ipfix_message::Header;
use ipfix_records::Records;
use std::marker::Model;

/// What a session's message means after the messages before it, and what it changes of the session. Contracts say by
/// `IsReadingOf` after which messages of the session it was read.
#[derive(Drop)]
pub struct Reading {
    pub(crate) read: Read,
    /// What it changes of its domain's templates.
    pub(crate) changes: Changes,
    /// The sequence number that the domain's next message is to have, where it is known.
    pub(crate) next: Option<u32>,
}

impl Model for Reading {
    ghost use Rattle.ipfix_session.specs.ReadAhead.{Ahead};

    ghost Value = { Ahead };

    ghost use Rattle.ipfix_session.specs.Answers.{as_meaning};
    ghost use Rattle.ipfix_session.specs.Changing.{change_of};

    ghost view = { λ r. record { meaning = as_meaning r.read; change = change_of r.changes; next = r.next } };
}

impl Reading {
    /// The message's header.
    pub fn header(&self) -> Header
        ensures { result ≡ self.now.meaning.header }
    {
        self.read.header
    }

    /// The message's Data Records, in its order.
    pub fn records(&self) -> &Records
        ensures { result.now ≡ self.now.meaning.records }
    {
        &self.read.records
    }

    /// What the message brings that gives no record.
    pub fn skips(&self) -> Skips
        ensures { result ≡ self.now.meaning.skips }
    {
        self.read.skips
    }

    /// Set where the message's sequence number is not the one that is expected.
    pub fn gap(&self) -> Option<Gap>
        ensures { result ≡ self.now.meaning.gap }
    {
        self.read.gap
    }
}
