//! The table of the open sessions.
ghost use Rattle.std.specs.Prelude.{◌≡◌, ◌≢◌, ◌+◌, ◌^◌, ◌<◌, ◌==◌, if◌then◌else◌, ℕ, [], None, IfSome, IsSomeAnd, OnOk, OnErr};
ghost use Rattle.std.specs.Option.{option_map, option_copied};
ghost use Rattle.ipfix_session.specs.Keeping.{at_key};
ghost use Rattle.ipfix_session.specs.ReadAhead.{HasRoomFor};
ghost use Rattle.mediator_tables.specs.SessionTable.{seen, IsFresh, KeepsOn};

use crate::ids::SessionId;
use crate::open_session::OpenSession;
use ipfix_session::{Reading, Session};
use std::alloc::{AllocError, Global};
use std::collections::BTreeMap;
use std::marker::Model;

/// The open sessions by their numbers. Look-ups and changes take time that grows with the logarithm of their number.
pub struct Sessions {
    alloc: Global,
    by_number: BTreeMap<u64, OpenSession>,
}

impl Drop for Sessions {
    // Written out: a derived one is proved anew in each crate that drops such a value.
    fn drop(self) {
        let Sessions {
            alloc: _,
            by_number: _,
        } = self;
    }
}

impl Model for Sessions {
    ghost use Rattle.std.specs.Prelude.{List, ℕ};
    ghost use Rattle.mediator_tables.specs.declared.open_session.OpenSession.{OpenSession};

    ghost Value = { List (ℕ × OpenSession) };

    ghost view = { λ s. s.by_number.entries };
}

impl Sessions {
    /// No session. What it comes to keep is taken from `alloc`.
    pub fn new(alloc: Global) -> Sessions
        ensures { result ≡ [] }
    {
        Sessions {
            alloc,
            by_number: BTreeMap::new(alloc),
        }
    }

    /// The session with the number `session`, if it is open.
    pub fn get(&self, session: SessionId) -> Option<&OpenSession>
        ensures { option_copied result ≡ at_key session.0 self.now }
    {
        self.by_number.get(&session.0)
    }

    /// Opens a session without a message under the number `session`, in place of one that was open under it.
    ///
    /// # Errors
    /// Want of memory, and then nothing has changed.
    pub fn open(&mut self, session: SessionId) -> Result<(), AllocError>
        ensures others { (q : ℕ) → q ≢ session.0 → at_key q self.new ≡ at_key q self.old }
        ensures ok { OnOk result (IsSomeAnd (at_key session.0 self.new) IsFresh) }
        ensures err { OnErr result ((q : ℕ) → at_key q self.new ≡ at_key q self.old) }
    {
        let fresh = OpenSession {
            session: Session::new(self.alloc),
            accepted: 0,
        };
        self.by_number.insert(session.0, fresh)?;
        Ok(())
    }

    /// Closes the session with the number `session`, if it is open. It takes no memory.
    pub fn close(&mut self, session: SessionId)
        ensures { (q : ℕ) → at_key q self.new ≡ (if q == session.0 then None else at_key q self.old) }
    {
        let _ = self.by_number.remove(&session.0);
    }

    /// Has the session with the number `session` share its templates, where it is open, so that a
    /// snapshot of it makes no copy of them.
    ///
    /// # Errors
    /// Want of memory. The sessions stand for the same messages, whatever the answer.
    pub fn share(&mut self, session: SessionId) -> Result<(), AllocError>
        ensures unchanged { (q : ℕ)
            → option_map seen (at_key q self.new) ≡ option_map seen (at_key q self.old) }
    {
        if let Some(open) = self.by_number.get_mut(&session.0) {
            open.session.share()?;
        }
        Ok(())
    }

    /// Makes room for what `reading`, of the next message of the session with the number `session`,
    /// changes, so that to keep it takes no memory. Where no such session is open, nothing is to be done.
    ///
    /// # Errors
    /// Want of memory. The sessions stand for the same messages, whatever the answer.
    pub fn make_room(&mut self, session: SessionId, reading: &Reading) -> Result<(), AllocError>
        ensures unchanged { (q : ℕ)
            → option_map seen (at_key q self.new) ≡ option_map seen (at_key q self.old) }
        ensures room { OnOk result
            (IfSome (at_key session.0 self.new) (λ o. HasRoomFor o.session reading.now)) }
    {
        if let Some(open) = self.by_number.get_mut(&session.0) {
            open.session.make_room(reading)?;
        }
        Ok(())
    }

    /// Keeps `reading`, which was read of the next message of the session with the number `session`,
    /// in room that was made for it. It counts the message, and takes no memory.
    pub fn keep(&mut self, session: SessionId, reading: Reading)
        requires room { IsSomeAnd (at_key session.0 self.old) (λ o. HasRoomFor o.session reading) }
        requires count { IfSome (at_key session.0 self.old) (λ o. o.accepted + 1 < 2 ^ 64) }
        ensures others { (q : ℕ) → q ≢ session.0 → at_key q self.new ≡ at_key q self.old }
        ensures keeps { KeepsOn reading (at_key session.0 self.old) (at_key session.0 self.new) }
    {
        if let Some(open) = self.by_number.get_mut(&session.0) {
            let _read = open.session.keep(reading);
            open.accepted += 1;
        }
    }
}
