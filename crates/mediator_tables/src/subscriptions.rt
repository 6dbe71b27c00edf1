//! The table of the live subscriptions.
ghost use Rattle.std.specs.Prelude.{◌≡◌, ◌≢◌, ◌≤◌, ◌++◌, ◌∷◌, ℕ, [], Some, None, true, false, length, map, filter, not, ◌==◌, if◌then◌else◌, IsSome, IsSomeAnd, IfSome, IfNone, IfOk, OnOk, OnErr};
ghost use Rattle.std.specs.Option.{option_map, option_copied};
ghost use Rattle.std.specs.List.{AllByRecursion};
ghost use Rattle.policy_text.specs.Naming.{is_name};
ghost use Rattle.subscriber_stream.specs.Calls.{message_if};
ghost use Rattle.mediator_tables.specs.SubscriptionTable.{shown};
ghost use Rattle.mediator_tables.specs.SubscriptionTable.{at, SameTable, HasName, Related, AreReady, TakesGiven, PullsOne, given_to, lacks_room_at, told, told_in, cut_off};

use crate::ids::SubId;
use crate::names::Names;
use crate::served::Served;
use crate::share::Share;
use crate::subscription::Subscription;
use bytes::Bytes;
use policy_text::Name;
use std::alloc::{AllocError, Global};
use std::collections::BTreeMap;
use std::marker::Model;
use subscriber_stream::{MessagePieces, Stream};

/// The live subscriptions of a mediator. A look-up by number or by name takes time that grows with the logarithm of how
/// many there are. What goes over those that are served doesn't go over those that are cut.
pub struct Subscriptions {
    alloc: Global,
    /// The live ones by their numbers.
    by_number: BTreeMap<u64, Subscription>,
    /// Their numbers by their subscribers' names.
    names: Names,
    /// The numbers of those that are served, in the order in which they began.
    served: Vec<u64>,
}

impl Drop for Subscriptions {
    // Written out: a derived one is proved anew in each crate that drops such a value.
    fn drop(self) {
        let Subscriptions {
            alloc: _,
            by_number: _,
            names: _,
            served: _,
        } = self;
    }
}

impl Model for Subscriptions {
    ghost use Rattle.mediator_tables.specs.SubscriptionTable.{SubscriptionRows};

    ghost Value = { SubscriptionRows };

    ghost use Rattle.mediator_tables.specs.Naming.{AreNamed, number_under, name_of_sub};

    ghost view = { λ s. record { live = s.by_number.entries; served = s.served.items } };

    ghost invariant = { λ s. AreNamed (number_under s.names) (name_of_sub s.by_number.entries) };
}

impl Subscriptions {
    /// A table without a subscription. What it comes to keep is in memory from `alloc`.
    pub fn new(alloc: Global) -> Subscriptions
        ensures { result ≡ record { live = []; served = [] } }
    {
        Subscriptions {
            alloc,
            by_number: BTreeMap::new(alloc),
            names: Names::new(alloc),
            served: Vec::new(alloc),
        }
    }

    /// The live subscription with the number `sub`, or `None`.
    pub fn get(&self, sub: SubId) -> Option<&Subscription>
        ensures { option_copied result ≡ at self.now sub.0 }
    {
        self.by_number.get(&sub.0)
    }

    /// The number of the live subscription whose subscriber has this `name`, or `None`.
    pub fn named(&self, name: &str) -> Option<SubId>
        ensures found { IfSome result (λ sub. IsSomeAnd (at self.now sub.0) (HasName name.now)) }
        ensures none { IfNone result ((sub : ℕ)
            → IfSome (at self.now sub) (λ s. s.name ≢ name.now)) }
    {
        match self.names.get(name) {
            Some(sub) => Some(SubId(sub)),
            None => None,
        }
    }

    /// The subscriptions that are served, in the order in which they began.
    ///
    /// # Errors
    /// Want of memory for the list.
    pub fn served(&self) -> Result<Vec<Served<'_>>, AllocError>
        ensures { IfOk result (λ v. map told v.items ≡ map (told_in self.now) self.now.served) }
    {
        let mut found = Vec::new(self.alloc);
        'served: for sub in &self.served {
            let name = match self.get(SubId(*sub)) {
                Some(kept) => kept.name.as_str(),
                None => "",
            };
            found.push(Served { sub: *sub, name })?;
        }
        Ok(found)
    }

    /// Whether the limits of the subscription that `share` names leave no room for the records of `share`, of which
    /// there are some: then it is to be cut. It takes no memory.
    pub fn lacks_room(&self, share: &Share) -> bool
        ensures { result ≡ lacks_room_at self.now (shown share.now) }
    {
        match self.get(SubId(share.sub)) {
            Some(kept) => !share.given.is_empty() && !kept.stream.room(&share.given),
            None => false,
        }
    }

    /// Whether the queue of the subscription that `share` names, which isn't cut, has no room for the records of
    /// `share` until some of what waits is pulled, and has room then. It takes no memory.
    pub fn is_held_up(&self, share: &Share) -> bool {
        match self.get(SubId(share.sub)) {
            Some(kept) => !kept.is_cut && kept.stream.is_held_up(&share.given),
            None => false,
        }
    }

    /// Makes room in the stream of each subscription that `shares` name for the records of its share, so that
    /// [`give`](Subscriptions::give) can't fail.
    ///
    /// # Errors
    /// Want of memory. Whatever the answer, only reserved room has changed.
    pub fn reserve(&mut self, shares: &[Share]) -> Result<(), AllocError>
        ensures unchanged { SameTable self.old self.new }
        ensures ok { OnOk result (AllByRecursion (λ s. IfSome (at self.new s.0)
            (λ x. length s.1 ≤ x.stream.spare)) (map shown shares.now)) }
    {
        'shares: for share in shares {
            reserve_one(&mut self.by_number, share)?;
        }
        Ok(())
    }

    /// Hands each subscription that `shares` name the records of its share, behind what waits for it. The caller has
    /// seen to it that there is room ([`reserve`](Subscriptions::reserve)). It takes no memory and can't fail.
    pub fn give(&mut self, shares: Vec<Share>)
        requires ready { AreReady self.old (map shown shares.items) }
        ensures each { (sub : ℕ) → Related (TakesGiven (given_to sub (map shown shares.items)))
            (at self.old sub) (at self.new sub) }
        ensures served { self.new.served ≡ self.old.served }
    {
        'shares: for share in shares {
            give_one(&mut self.by_number, share);
        }
    }

    /// Cuts the subscription with the number `sub`, if there is one: it is served no more, and keeps what waits. It
    /// takes no memory.
    pub fn cut(&mut self, sub: SubId)
        ensures each { (q : ℕ) → at self.new q
            ≡ (if q == sub.0 then option_map cut_off (at self.old q) else at self.old q) }
        ensures served { self.new.served ≡ filter (λ q. not (q == sub.0)) self.old.served }
    {
        if let Some(kept) = self.by_number.get_mut(&sub.0) {
            kept.is_cut = true;
        }
        take_out(&mut self.served, sub.0);
    }

    /// Adds a live subscription with the number `sub` and the subscriber's `name`, neither of which is there, and with
    /// its `stream`. It is served from now on.
    ///
    /// # Errors
    /// Want of memory, and then nothing has changed.
    pub fn insert(&mut self, sub: SubId, name: &str, stream: Stream) -> Result<(), AllocError>
        requires name { is_name name.now ≡ true }
        requires new { at self.old sub.0 ≡ None }
        requires free { (q : ℕ) → IfSome (at self.old q) (λ s. s.name ≢ name.now) }
        // It is live and served then, behind the others.
        ensures ok { OnOk result ((q : ℕ) → at self.new q ≡ (if q == sub.0 then Some
            (record { name = name.now; is_cut = false; stream = stream }) else at self.old q)) }
        ensures served { OnOk result (self.new.served ≡ self.old.served ++ sub.0 ∷ []) }
        // Want of memory changes nothing.
        ensures err { OnErr result (SameTable self.old self.new) }
    {
        self.served.reserve(1)?;
        let added = Subscription {
            name: Name::new(self.alloc, name.as_bytes())?,
            is_cut: false,
            stream,
        };
        self.names.insert(self.alloc, name, sub.0)?;
        if let Err(refused) = put(&mut self.by_number, sub.0, added) {
            self.names.remove(name);
            return Err(refused);
        }
        self.served.push_reserved(sub.0);
        Ok(())
    }

    /// Takes out the subscription with the number `sub`, if there is one, with what waits for it. It takes no memory.
    pub fn remove(&mut self, sub: SubId)
        ensures each { (q : ℕ) → at self.new q ≡ (if q == sub.0 then None else at self.old q) }
        ensures served { self.new.served ≡ filter (λ q. not (q == sub.0)) self.old.served }
    {
        take_out(&mut self.served, sub.0);
        if let Some(gone) = self.by_number.remove(&sub.0) {
            self.names.remove(gone.name.as_str());
        }
    }

    /// Builds the next message of the live subscription with the number `sub`, out of what waits for it, and answers
    /// `None` exactly where nothing waits. `now` is its Export Time, in seconds since 1970 (RFC 7011, section 3.1), and
    /// `target` the most octets that it is to have: it is longer only where the next part alone is.
    ///
    /// # Errors
    /// Want of memory for the message, and then nothing has changed.
    pub fn pull(&mut self, sub: SubId, now: u32, target: u16) -> Result<Option<Bytes>, AllocError>
        requires known { IsSome (at self.old sub.0) }
        // No other subscription changes, nor who is served.
        ensures others { (q : ℕ) → q ≢ sub.0 → at self.new q ≡ at self.old q }
        ensures served { self.new.served ≡ self.old.served }
        // The message is what the stream gives; want of memory changes nothing.
        ensures ok { IfOk result (λ m.
            Related (PullsOne now target m) (at self.old sub.0) (at self.new sub.0)) }
        ensures err { OnErr result (SameTable self.old self.new) }
    {
        match self.by_number.get_mut(&sub.0) {
            Some(kept) => kept.stream.pull(now, target),
            None => unreachable!(),
        }
    }

    /// Builds the next message of the live subscription with the number `sub` as [`pull`](Subscriptions::pull) does
    /// with `now` and `target`, in pieces: the octets of its records are shared with what else has them, unless its
    /// runs are many and short.
    ///
    /// # Errors
    /// Want of memory for the list of pieces, and then nothing has changed.
    pub fn pull_pieces(
        &mut self,
        sub: SubId,
        now: u32,
        target: u16,
    ) -> Result<Option<MessagePieces>, AllocError>
        requires known { IsSome (at self.old sub.0) }
        // No other subscription changes, nor who is served.
        ensures others { (q : ℕ) → q ≢ sub.0 → at self.new q ≡ at self.old q }
        ensures served { self.new.served ≡ self.old.served }
        // The message is what the stream gives; want of memory changes nothing.
        ensures ok { IfOk result (λ m.
            Related (PullsOne now target m) (at self.old sub.0) (at self.new sub.0)) }
        ensures err { OnErr result (SameTable self.old self.new) }
    {
        match self.by_number.get_mut(&sub.0) {
            Some(kept) => kept.stream.pull_pieces(now, target),
            None => unreachable!(),
        }
    }

    /// Builds the next message of the live subscription with the number `sub` as [`pull`](Subscriptions::pull) does
    /// with `now` and `target`, and puts its octets in place of those that stand in `message`. The answer is whether
    /// there is one.
    ///
    /// # Errors
    /// Want of memory for the octets. No subscription has changed then, and `message` may have.
    pub fn pull_to(
        &mut self,
        sub: SubId,
        now: u32,
        target: u16,
        message: &mut Vec<u8>,
    ) -> Result<bool, AllocError>
        requires known { IsSome (at self.old sub.0) }
        // No other subscription changes, nor who is served.
        ensures others { (q : ℕ) → q ≢ sub.0 → at self.new q ≡ at self.old q }
        ensures served { self.new.served ≡ self.old.served }
        // The message is what the stream gives; want of memory changes nothing.
        ensures ok { IfOk result (λ is_there.
            Related (PullsOne now target (message_if is_there message.new.items))
            (at self.old sub.0) (at self.new sub.0)) }
        ensures err { OnErr result (SameTable self.old self.new) }
    {
        match self.by_number.get_mut(&sub.0) {
            Some(kept) => kept.stream.pull_to(now, target, message),
            None => unreachable!(),
        }
    }
}

ghost use Rattle.ipfix_session.specs.Keeping.{at_key};
ghost use Rattle.mediator_tables.specs.SubscriptionTable.{SameLive, HasSpare, IsReady};
ghost use Rattle.mediator_tables.specs.Naming.{KeepsSpare};

/// Makes room in the stream of the subscription that `share` names, if it is one of `live`, for the records of `share`.
///
/// # Errors
/// Want of memory. Whatever the answer, only reserved room has changed.
fn reserve_one(live: &mut BTreeMap<u64, Subscription>, share: &Share) -> Result<(), AllocError>
    ensures unchanged { SameLive live.old.entries live.new.entries }
    ensures kept { KeepsSpare live.old.entries live.new.entries }
    ensures ok { OnOk result (HasSpare live.new.entries (shown share.now)) }
{
    match live.get_mut(&share.sub) {
        Some(kept) => kept.stream.reserve(&share.given),
        None => Ok(()),
    }
}

/// Hands the subscription that `share` names, if it is one of `live`, the records of `share`, in room that was reserved.
/// It takes no memory.
fn give_one(live: &mut BTreeMap<u64, Subscription>, share: Share)
    requires ready { IfSome (at_key share.sub live.old.entries)
        (λ x. IsReady x.stream share.given) }
    ensures each { (q : ℕ) → Related (TakesGiven (given_to q (shown share ∷ [])))
        (at_key q live.old.entries) (at_key q live.new.entries) }
    ensures others { (q : ℕ) → q ≢ share.sub
        → at_key q live.new.entries ≡ at_key q live.old.entries }
{
    let Share { sub, given } = share;
    if given.is_empty() {
        return;
    }
    if let Some(kept) = live.get_mut(&sub) {
        kept.stream.push_reserved(given);
    }
}

/// Puts the subscription `added` under the number `sub` into `live`.
///
/// # Errors
/// Want of memory, and then nothing has changed.
fn put(
    live: &mut BTreeMap<u64, Subscription>,
    sub: u64,
    added: Subscription,
) -> Result<(), AllocError>
    ensures ok { OnOk result ((q : ℕ) → at_key q live.new.entries
        ≡ (if q == sub then Some added else at_key q live.old.entries)) }
    ensures err { OnErr result (live.new.entries ≡ live.old.entries) }
{
    live.insert(sub, added)?;
    Ok(())
}

/// Takes the number `sub` out of the list `numbers`.
fn take_out(numbers: &mut Vec<u64>, sub: u64)
    ensures { numbers.new.items ≡ filter (λ q. not (q == sub)) numbers.old.items }
{
    numbers.retain(|q| *q != sub);
}
