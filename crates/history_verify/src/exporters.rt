//! The sessions of a history.
ghost use Rattle.std.specs.Prelude.{◌≡◌, ◌∷◌, ◌++◌, ◌+◌, ◌<◌, ◌^◌, ◌↔◌, [], ℕ, List, true, IsTrue, IfSome, IfNone, IsSomeAnd, OnOk, OnErr};
ghost use Rattle.ipfix_session.specs.Keeping.{at_key};
ghost use Rattle.ipfix_session.specs.ReadAhead.{IsReadingOf, HasRoomFor};
ghost use Rattle.event_journal.specs.declared.entry.Entry.{Entry};
ghost use Rattle.event_journal.specs.declared.entry.Entry.TheVariants.{Open, Close, Message};
ghost use Rattle.mediator_history.specs.Sessions.{is_open, messages_of, sessions_opened};

use ipfix_session::Reading;
use mediator_tables::{OpenSession, SessionId, Sessions};
use std::alloc::{AllocError, Global};

/// The open sessions of a history, and how many were opened. Contracts say by `AreExporters` of which histories.
#[derive(Drop)]
pub struct Exporters {
    sessions: Sessions,
    opened: u64,
}

impl Exporters {
    ghost use Rattle.history_verify.specs.Parts.{AreExporters, SameExporters, IsTurn, IsTurnIn, HasRoomToKeep};

    /// The sessions of a history without an entry. What comes to be kept is in memory from `alloc`.
    pub fn new(alloc: Global) -> Exporters
        ensures { AreExporters result [] }
    {
        Exporters {
            sessions: Sessions::new(alloc),
            opened: 0,
        }
    }

    /// Whether `session` is the number of the next session: how many were opened, and one more.
    pub fn is_next(&self, session: u64) -> bool
        ensures { IsTrue result ↔ (session ≡ self.now.opened + 1) }
    {
        session.checked_sub(1) == Some(self.opened)
    }

    /// Opens the next session, whose number is `session`.
    ///
    /// # Errors
    /// Want of memory, and then nothing has changed.
    pub fn open(&mut self, session: u64) -> Result<(), AllocError>
        requires next { session ≡ self.old.opened + 1 }
        ensures ok { OnOk result ((h : List Entry) → AreExporters self.old h
            → AreExporters self.new (h ++ Open session ∷ [])) }
        ensures err { OnErr result (SameExporters self.old self.new) }
    {
        self.sessions.open(SessionId(session))?;
        self.opened = session;
        Ok(())
    }

    /// Whether the session with the number `session` is open.
    pub fn is_open(&self, session: u64) -> bool
        ensures { (h : List Entry) → AreExporters self.now h → result ≡ is_open session h }
    {
        self.sessions.get(SessionId(session)).is_some()
    }

    /// Closes the session with the number `session`, if it is open. It takes no memory.
    pub fn close(&mut self, session: u64)
        ensures { (h : List Entry) → AreExporters self.old h
            → AreExporters self.new (h ++ Close session ∷ []) }
    {
        self.sessions.close(SessionId(session));
    }

    /// The session with the number `session`, where it is open and had `number` messages; else `None`.
    pub fn in_turn(&self, session: u64, number: u64) -> Option<&OpenSession>
        ensures found { IfSome result (λ o. IsTurnIn self.now session number o.now) }
        ensures none { IfNone result ((h : List Entry) → AreExporters self.now h
            → IsTurn h session number → ⊥) }
    {
        let open = self.sessions.get(SessionId(session))?;
        if open.accepted == number {
            Some(open)
        } else {
            None
        }
    }

    /// Makes room for what `reading` changes, which was read of the next message of the session with the number
    /// `session`.
    ///
    /// # Errors
    /// Want of memory. Whatever the answer, only reserved room has changed.
    pub fn make_room(&mut self, session: u64, reading: &Reading) -> Result<(), AllocError>
        ensures unchanged { SameExporters self.old self.new }
        ensures room { OnOk result (HasRoomToKeep self.new session reading.now) }
    {
        self.sessions.make_room(SessionId(session), reading)
    }

    /// Keeps `reading`, which was read of the next message of the session with the number `session`, in room that
    /// [`make_room`](Exporters::make_room) made for it. It takes no memory and can't fail.
    pub fn keep(&mut self, session: u64, reading: Reading)
        requires room { IsSomeAnd (at_key session self.old.sessions)
            (λ o. HasRoomFor o.session reading) }
        requires count { IfSome (at_key session self.old.sessions) (λ o. o.accepted + 1 < 2 ^ 64) }
        ensures { (h : List Entry) (number : ℕ) (octets : List ℕ) → AreExporters self.old h
            → is_open session h ≡ true → IsReadingOf (messages_of session h) octets reading
            → AreExporters self.new (h ++ Message session number octets ∷ []) }
    {
        self.sessions.keep(SessionId(session), reading);
    }
}
