//! What counts in the aggregates of a history.
ghost use Rattle.std.specs.Prelude.{◌≡◌, ◌≢◌, ◌∷◌, ◌++◌, [], ℕ, List, true, map, IfOk};
ghost use Rattle.flow_aggregate.specs.Groups.{Sample};
ghost use Rattle.flow_aggregate.specs.declared.addition.Addition.{Addition};
ghost use Rattle.flow_aggregate.specs.Counts.{Count, count_of};
ghost use Rattle.flow_aggregate.specs.Closing.{closed_by};
ghost use Rattle.flow_aggregate.specs.Running.{staying};
ghost use Rattle.mediator_tables.specs.Adding.{tallied, reserved_for, AllReady, NoneTwice, AreCountable, added_to};
ghost use Rattle.event_journal.specs.declared.entry.Entry.{Entry};
ghost use Rattle.mediator_history.specs.Counting.{running};
ghost use Rattle.mediator_history.specs.Numbers.{is_in};
ghost use Rattle.mediator_tables.specs.SubscriptionTable.{shown, given_to};

use mediator_tables::{Reserved, RunningGroups, Share, SubId, Tally};
use std::alloc::{AllocError, Global};

/// The running groups of a history. Contracts say by `AreSums` of which histories.
#[derive(Drop)]
pub(crate) struct Sums {
    alloc: Global,
    groups: RunningGroups,
}

impl Sums {
    ghost use Rattle.history_verify.specs.Parts.{AreSums, SameSums, IsWithout};

    /// The groups of a history without an entry. What comes to be kept is in memory from `alloc`.
    pub(crate) fn new(alloc: Global) -> Sums
        ensures { AreSums result [] }
    {
        Sums {
            alloc,
            groups: RunningGroups::new(alloc),
        }
    }

    /// Makes ready for what `tallies` are to add, in which no subscription stands twice, and answers what
    /// [`add`](Sums::add) takes. What was made ready before is so no more.
    ///
    /// # Errors
    /// Want of memory. Whatever the answer, only what is made ready has changed.
    pub(crate) fn reserve(&mut self, tallies: &[Tally]) -> Result<Vec<Reserved>, AllocError>
        ensures unchanged { SameSums self.old self.new }
        ensures ready { IfOk result (λ reserved. NoneTwice (map tallied tallies.now)
            → AllReady self.new.groups (map reserved_for reserved.items)
            (map tallied tallies.now)) }
    {
        self.groups.reserve(tallies)
    }

    /// Adds `reserved`, which was made ready. It takes no memory and can't fail.
    pub(crate) fn add(&mut self, reserved: Vec<Reserved>)
        requires { AreCountable self.old.groups (map reserved_for reserved.items) }
        ensures { (tallies : List (ℕ × List Count)) (more : ℕ → List Sample) (h g : List Entry)
            → AllReady self.old.groups (map reserved_for reserved.items) tallies → NoneTwice tallies
            → ((q : ℕ) → added_to q tallies ≡ map count_of (more q)) → AreSums self.old h
            → ((q : ℕ) → running q g ≡ running q h ++ more q) → AreSums self.new g }
    {
        self.groups.add_reserved(reserved);
    }

    /// What an advance of the clock to `t` closes of the subscription with the number `sub`.
    ///
    /// # Errors
    /// Want of memory.
    pub(crate) fn closing_of(&self, sub: u64, t: u64) -> Result<Share, AllocError>
        ensures sub { IfOk result (λ share. share.sub ≡ sub) }
        ensures given { IfOk result (λ share. (h : List Entry) → AreSums self.now h
            → share.given ≡ closed_by t (running sub h)) }
    {
        let given = self.groups.closing(SubId(sub), t)?;
        Ok(Share { sub, given })
    }

    /// What an advance of the clock to `t` closes, subscription by subscription.
    ///
    /// # Errors
    /// Want of memory.
    pub(crate) fn closing(&self, t: u64) -> Result<Vec<Share>, AllocError>
        ensures { IfOk result (λ shares. (h : List Entry) → AreSums self.now h
            → (sub : ℕ) → given_to sub (map shown shares.items) ≡ closed_by t (running sub h)) }
    {
        let subs = self.groups.subs()?;
        let mut shares = Vec::new(self.alloc);
        'subs: for sub in &subs {
            shares.push(self.closing_of(sub.0, t)?)?;
        }
        Ok(shares)
    }

    /// Drops the groups that an advance of the clock to `t` closes. It takes no memory.
    pub(crate) fn close(&mut self, t: u64)
        ensures { (h g : List Entry) → AreSums self.old h
            → ((q : ℕ) → running q g ≡ staying t (running q h)) → AreSums self.new g }
    {
        self.groups.close(t);
    }

    /// Drops the groups of the subscriptions with the numbers `subs`. What was made ready for others stays so. It takes
    /// no memory.
    pub(crate) fn remove(&mut self, subs: &[u64])
        ensures gone { (h g : List Entry) → AreSums self.old h
            → ((q : ℕ) → is_in q subs.now ≡ true → running q g ≡ [])
            → ((q : ℕ) → (is_in q subs.now ≡ true → ⊥) → running q g ≡ running q h)
            → AreSums self.new g }
        ensures ready { (reserved : List (ℕ × List Addition)) (tallies : List (ℕ × List Count))
            → AllReady self.old.groups reserved tallies
            → ((q : ℕ) → is_in q subs.now ≡ true → added_to q tallies ≡ [])
            → AllReady self.new.groups reserved tallies }
    {
        'subs: for sub in subs {
            self.remove_one(*sub);
        }
    }

    /// Drops the groups of the subscription with the number `sub`. It takes no memory.
    pub(crate) fn remove_one(&mut self, sub: u64)
        ensures gone { (h g : List Entry) → AreSums self.old h → running sub g ≡ []
            → ((q : ℕ) → q ≢ sub → running q g ≡ running q h) → AreSums self.new g }
        ensures without { IsWithout self.old sub self.new }
    {
        self.groups.remove(SubId(sub));
    }
}
