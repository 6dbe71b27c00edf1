//! What an advance of the clock would do, found out before anything is changed.
ghost use Rattle.std.specs.Prelude.{◌≡◌, ℕ, List, [], map, IfOk};
ghost use Rattle.event_journal.specs.declared.entry.Entry.{Entry};
ghost use Rattle.event_journal.specs.declared.entry.Entry.TheVariants.{Advance};
ghost use Rattle.mediator_tables.specs.SubscriptionTable.{shown};

use crate::engine::Engine;
use crate::plan::shares_for_proof;
use disclosure_audit::AuditQueue;
use mediator_tables::{Served, Share, SubId};
use std::alloc::{AllocError, Global};

/// What an advance of the clock would do.
#[derive(Drop)]
pub(crate) struct Closing {
    /// The numbers of the subscriptions that it cuts, ascending.
    pub(crate) cuts: Vec<u64>,
    /// What it gives to those that are still served then.
    pub(crate) shares: Vec<Share>,
}

impl<Q: AuditQueue + Drop> Engine<Q> {
    ghost use Rattle.mediator_tables.specs.SubscriptionTable.{told};
    ghost use Rattle.mediator_state.specs.Standing.{Stands};
    ghost use Rattle.mediator_state.specs.Planning.{IsJudged};
    ghost use Rattle.mediator_state.specs.Advancing.{closing_share, AreParted};

    /// What an advance of the clock to `t`, in milliseconds since 1970, would do as the next entry, with the cuts
    /// before it.
    ///
    /// # Errors
    /// Want of memory.
    pub(crate) fn plan_advance(&self, t: u64) -> Result<Closing, AllocError>
        ensures { IfOk result (λ c. (h : List Entry) → Stands self.now h
            → IsJudged self.now h (Advance t) c.cuts.items (map shown c.shares.items) []) }
    {
        let served = self.subscriptions.served()?;
        let closing = self.close_for(t, &served)?;
        shares_for_proof(&closing.shares);
        Ok(closing)
    }

    /// Whether what an advance of the clock to `t`, in milliseconds since 1970, would close for one of those that are
    /// served has no room in its queue until some of what waits is pulled, and has room then. It is false where there
    /// is no memory to find that out.
    pub(crate) fn is_advance_held_up(&self, t: u64) -> bool {
        match self.subscriptions.served() {
            Ok(served) => served
                .iter()
                .any(|who| self.is_closing_held_up(SubId(who.sub), t)),
            Err(_) => false,
        }
    }

    /// Whether what an advance of the clock to `t` would close for the subscription with the number `sub` has no room
    /// in its queue until some of what waits is pulled, and has room then. It is false where there is no memory to find
    /// that out.
    fn is_closing_held_up(&self, sub: SubId, t: u64) -> bool {
        match self.groups.closing(sub, t) {
            Ok(given) => self.subscriptions.is_held_up(&Share { sub: sub.0, given }),
            Err(_) => false,
        }
    }

    /// What an advance of the clock to `t` closes for each of the subscriptions `served`, where its limits leave room
    /// for that; the others are cut.
    ///
    /// # Errors
    /// Want of memory.
    fn close_for(&self, t: u64, served: &[Served<'_>]) -> Result<Closing, AllocError>
        ensures { IfOk result (λ c. (h : List Entry) → Stands self.now h
            → AreParted self.now.subscriptions (map (closing_share h t) (map told served.now))
            c.cuts.items (map shown c.shares.items)) }
    {
        let mut cuts = Vec::new(self.alloc);
        let mut shares = Vec::new(self.alloc);
        'served: for who in served {
            let given = self.groups.closing(SubId(who.sub), t)?;
            let share = Share {
                sub: who.sub,
                given,
            };
            if self.subscriptions.lacks_room(&share) {
                cuts.push(who.sub)?;
            } else {
                shares.push(share)?;
            }
        }
        Ok(Closing { cuts, shares })
    }
}
