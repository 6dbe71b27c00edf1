//! The subscriptions of a history.
ghost use Rattle.std.specs.Prelude.{◌≡◌, ◌≢◌, ◌∷◌, ◌++◌, ◌+◌, ◌<◌, ◌≤◌, ◌^◌, ◌↔◌, [], ℕ, List, true, None, Some, is_some, map, length, slice_get, if◌then◌else◌, IsTrue, IfOk, IfSome, IfNone, OnOk, OnErr};
ghost use Rattle.event_journal.specs.declared.entry.Entry.{Entry};
ghost use Rattle.event_journal.specs.declared.entry.Entry.TheVariants.{Subscribe, Unsubscribe, Cut};
ghost use Rattle.mediator_history.specs.Subscriptions.{is_live, is_served, name_of, subscribed_in, subscriptions_begun, served};
ghost use Rattle.mediator_tables.specs.SubscriptionTable.{told, shown, given_to};
ghost use Rattle.policy_text.specs.Naming.{is_name};
ghost use Rattle.history_verify.specs.Counts.{counts_of};

use crate::count::SubscriptionCount;
use mediator_tables::{Served, Share};
use policy_text::Name;
use std::alloc::{AllocError, Global};
use std::collections::{BTreeMap, BTreeSet};

/// The subscriptions of a history, with how much was disclosed to each. Contracts say by `AreSubscribers` of which
/// histories. Each look-up and each change takes time that grows with the logarithm of their number.
#[derive(Drop)]
pub(crate) struct Subscribers {
    alloc: Global,
    /// A count for each that began: that of number n stands at place n - 1.
    begun: Vec<SubscriptionCount>,
    /// The numbers of the live ones by their names.
    live: BTreeMap<String, u64>,
    /// The numbers of those that are served.
    served: BTreeSet<u64>,
}

impl Subscribers {
    ghost use Rattle.history_verify.specs.Parts.{AreSubscribers, SameSubscribers, NeverBegan, live_number, served_shares, MayCount, HasCounted};

    /// The subscriptions of a history without an entry. What comes to be kept is in memory from `alloc`.
    pub(crate) fn new(alloc: Global) -> Subscribers
        ensures { AreSubscribers result [] }
    {
        Subscribers {
            alloc,
            begun: Vec::new(alloc),
            live: BTreeMap::new(alloc),
            served: BTreeSet::new(alloc),
        }
    }

    /// Whether `sub` is the number of the next subscription: how many began, and one more.
    pub(crate) fn is_next(&self, sub: u64) -> bool
        ensures { IsTrue result ↔ (sub ≡ length self.now.begun.items + 1) }
    {
        sub == self.begun.len() as u64 + 1
    }

    /// Whether a live subscription has this `name`.
    pub(crate) fn is_taken(&self, name: &str) -> bool
        ensures { result ≡ is_some (live_number self.now name.now) }
    {
        self.live.get(name).is_some()
    }

    /// Whether the subscription with the number `sub` is live.
    pub(crate) fn is_live(&self, sub: u64) -> bool
        ensures { (h : List Entry) → AreSubscribers self.now h → result ≡ is_live sub h }
    {
        match self.name(sub) {
            Some(name) => self.live.get(name).copied() == Some(sub),
            None => false,
        }
    }

    /// Whether the subscription with the number `sub` is served.
    pub(crate) fn is_served(&self, sub: u64) -> bool
        ensures { (h : List Entry) → AreSubscribers self.now h → result ≡ is_served sub h }
    {
        self.served.contains(&sub)
    }

    /// The name of the subscription with the number `sub`, live or not, or `None` where it never began.
    fn name(&self, sub: u64) -> Option<&str>
        ensures some { IfSome result (λ name. (h : List Entry) → AreSubscribers self.now h
            → (name.now ≡ name_of sub h) × (sub ≤ subscriptions_begun h) × (0 < sub)) }
        ensures none { IfNone result ((h : List Entry) → AreSubscribers self.now h
            → NeverBegan h sub) }
    {
        let count = count_at(&self.begun, sub)?;
        Some(count.name.as_str())
    }

    /// Begins the next subscription, whose number is `sub`, for a subscriber of this `name`, which no live one has.
    ///
    /// # Errors
    /// Want of memory, and then nothing has changed.
    pub(crate) fn begin(&mut self, sub: u64, name: &Name) -> Result<(), AllocError>
        requires next { sub ≡ length self.old.begun.items + 1 }
        requires free { live_number self.old name.now ≡ None }
        // It is live and served then.
        ensures ok { OnOk result ((h : List Entry) → AreSubscribers self.old h
            → AreSubscribers self.new (h ++ Subscribe sub name.now ∷ [])) }
        // A name is one by its type.
        ensures named { OnOk result (is_name name.now ≡ true) }
        // Want of memory changes nothing.
        ensures err { OnErr result (SameSubscribers self.old self.new) }
    {
        self.begun.reserve(1)?;
        let count = SubscriptionCount {
            sub,
            name: Name::new(self.alloc, name.as_bytes())?,
            disclosed: 0,
        };
        let key = String::from_str(self.alloc, name.as_str())?;
        self.live.insert(key, sub)?;
        if self.served.insert(sub).is_err() {
            self.live.remove(name.as_str());
            return Err(AllocError);
        }
        self.begun.push_reserved(count);
        Ok(())
    }

    /// Ends the live subscription with the number `sub`. It takes no memory.
    pub(crate) fn end(&mut self, sub: u64)
        ensures { (h : List Entry) → AreSubscribers self.old h → is_live sub h ≡ true
            → AreSubscribers self.new (h ++ Unsubscribe sub ∷ []) }
    {
        self.served.remove(&sub);
        if let Some(count) = count_at(&self.begun, sub) {
            self.live.remove(count.name.as_str());
        }
    }

    /// Cuts the subscription with the number `sub`: it is served no more. It takes no memory.
    pub(crate) fn cut(&mut self, sub: u64)
        ensures { (h : List Entry) → AreSubscribers self.old h
            → AreSubscribers self.new (h ++ Cut sub ∷ []) }
    {
        self.served.remove(&sub);
    }

    /// The subscriptions that are served, by their numbers ascending, if they are `wanted`; else none.
    ///
    /// # Errors
    /// Want of memory for the list.
    pub(crate) fn served_if(&self, wanted: bool) -> Result<Vec<Served<'_>>, AllocError>
        ensures { IfOk result (λ v. (h : List Entry) → AreSubscribers self.now h
            → map told v.items ≡ (if wanted then map (λ sub. (sub, name_of sub h)) (served h)
            else [])) }
    {
        let mut found = Vec::new(self.alloc);
        if !wanted {
            return Ok(found);
        }
        'served: for sub in &self.served {
            let name = self.name_or_none(*sub);
            found.push(Served { sub: *sub, name })?;
        }
        Ok(found)
    }

    /// The subscriptions with the numbers `subs`, in this order, with their names.
    ///
    /// # Errors
    /// Want of memory for the list.
    pub(crate) fn those(&self, subs: &[u64]) -> Result<Vec<Served<'_>>, AllocError>
        ensures { IfOk result (λ v. (h : List Entry) → AreSubscribers self.now h
            → map told v.items ≡ map (λ sub. (sub, name_of sub h)) subs.now) }
    {
        let mut found = Vec::with_capacity(self.alloc, subs.len())?;
        'subs: for sub in subs {
            let name = self.name_or_none(*sub);
            found.push_reserved(Served { sub: *sub, name });
        }
        Ok(found)
    }

    /// The name of the subscription with the number `sub`, which is empty where it never began.
    fn name_or_none(&self, sub: u64) -> &str
        ensures { (h : List Entry) → AreSubscribers self.now h → result.now ≡ name_of sub h }
    {
        match self.name(sub) {
            Some(name) => name,
            None => "",
        }
    }

    /// Counts the records that `shares` give to their subscriptions. It takes no memory.
    pub(crate) fn give(&mut self, shares: &[Share])
        requires room { MayCount self.old (map shown shares.now) }
        ensures { HasCounted (map shown shares.now) self.old self.new }
    {
        'shares: for share in shares {
            self.give_one(share);
        }
    }

    /// Counts the records that `shares` give to those of their subscriptions that are served. It takes no memory.
    pub(crate) fn give_served(&mut self, shares: &[Share])
        requires room { MayCount self.old (served_shares self.old (map shown shares.now)) }
        ensures { HasCounted (served_shares self.old (map shown shares.now)) self.old self.new }
    {
        'shares: for share in shares {
            if self.served.contains(&share.sub) {
                self.give_one(share);
            }
        }
    }

    /// Counts the records that `share` gives to its subscription.
    pub(crate) fn give_one(&mut self, share: &Share)
        requires room { MayCount self.old (shown share.now ∷ []) }
        ensures { HasCounted (shown share.now ∷ []) self.old self.new }
    {
        if let Some(place) = share.sub.checked_sub(1) {
            count_more(&mut self.begun, place as usize, share.given.len() as u64);
        }
    }

    /// The count of each subscription that began, in the order of their numbers.
    pub(crate) fn into_counts(self) -> Vec<SubscriptionCount>
        ensures { (h : List Entry) → AreSubscribers self h → result.items ≡ counts_of h }
    {
        let Subscribers {
            alloc: _,
            begun,
            live: _,
            served: _,
        } = self;
        begun
    }
}

ghost use Rattle.history_verify.specs.Parts.{more_at};

/// The one of `counts` that is of the subscription with the number `sub`, or `None`.
fn count_at(counts: &[SubscriptionCount], sub: u64) -> Option<&SubscriptionCount>
    ensures some { IfSome result (λ count. (place : ℕ) × (sub ≡ place + 1)
        × (slice_get counts.now place ≡ Some count.now)) }
    ensures none { IfNone result ((place : ℕ) → sub ≡ place + 1
        → slice_get counts.now place ≡ None) }
{
    let place = sub.checked_sub(1)?;
    counts.get(place as usize)
}

/// Counts `more` further records in the one of `counts` at `place`, if there is one.
fn count_more(counts: &mut Vec<SubscriptionCount>, place: usize, more: u64)
    requires room { IfSome (slice_get counts.old.items place) (λ c. c.disclosed + more < 2 ^ 64) }
    ensures { counts.new.items ≡ more_at place more counts.old.items }
{
    if let Some(count) = counts.get_mut(place) {
        count.disclosed += more;
    }
}
