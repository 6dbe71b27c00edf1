//! The terms on which records are judged for all that are served, as they stood at one moment.
ghost use Rattle.std.specs.Prelude.{◌≡◌, ◌↔◌, IsTrue, IfOk, map, length};
ghost use Rattle.mediator_tables.specs.SubscriptionTable.{told};
ghost use Rattle.mediator_shares.specs.Terms.{terms_of, owned};

use crate::in_force::InForce;
use mediator_tables::Served;
use std::alloc::{AllocError, Global};
use std::marker::Model;

/// The terms on which records are shared: the policy in force, the time of the clock, the subscriptions that are
/// served, and how many notes may be kept of a message, as they stood when this was made. Threads can judge by it while
/// the mediator goes its own way.
pub struct Terms {
    pub(crate) in_force: InForce,
    served: Vec<Subscriber>,
    most: u64,
}

/// A subscription that is served, with a copy of its subscriber's name.
#[derive(Drop)]
pub(crate) struct Subscriber {
    pub(crate) sub: u64,
    pub(crate) name: String,
}

impl Drop for Terms {
    // Written out: a derived one is proved anew in each crate that drops such a value.
    fn drop(self) {
        let Terms {
            in_force: _,
            served: _,
            most: _,
        } = self;
    }
}

impl Model for Terms {
    ghost use Rattle.std.specs.Prelude.{map};
    ghost use Rattle.mediator_shares.specs.Terms.{Terms, owned};

    ghost Value = { Terms };

    ghost view = { λ t. record { in_force = t.in_force; served = map owned t.served.items; most = t.most } };
}

impl Terms {
    /// The terms of what `in_force` says, for the subscriptions `served`, with at most `most` notes kept of a message.
    /// The policy is shared, and the names are copied to memory from `alloc`.
    ///
    /// # Errors
    /// Want of memory.
    pub fn of(
        alloc: Global,
        in_force: &InForce,
        served: &[Served<'_>],
        most: u64,
    ) -> Result<Terms, AllocError>
        ensures { IfOk result (λ terms. terms ≡ terms_of in_force.now served.now most) }
    {
        let mut subscribers = Vec::new(alloc);
        'served: for who in served {
            subscribers.push(Subscriber {
                sub: who.sub,
                name: String::from_str(alloc, who.name)?,
            })?;
        }
        Ok(Terms {
            in_force: in_force.share(alloc)?,
            served: subscribers,
            most,
        })
    }

    /// Whether these are the terms of what `in_force` says, for the subscriptions `served`, with at most `most` notes
    /// kept of a message. All of it is compared, so the terms of another mediator are told apart too.
    pub fn are(&self, in_force: &InForce, served: &[Served<'_>], most: u64) -> bool
        ensures { IsTrue result ↔ self.now ≡ terms_of in_force.now served.now most }
    {
        self.most == most
            && self.in_force.clock() == in_force.clock()
            && are_those(&self.served, served)
            && self.in_force.has_policy_of(in_force)
    }

    /// How many notes may be kept of a message.
    pub(crate) fn most(&self) -> u64
        ensures { result ≡ self.now.most }
    {
        self.most
    }

    /// The subscriptions that are served, in their order. The list is in memory from `alloc`.
    ///
    /// # Errors
    /// Want of memory.
    pub(crate) fn served(&self, alloc: Global) -> Result<Vec<Served<'_>>, AllocError>
        ensures { IfOk result (λ served. map told served.items ≡ self.now.served) }
    {
        lent(alloc, &self.served)
    }
}

/// The subscriptions of `subscribers`, in their order. The list is in memory from `alloc`.
///
/// # Errors
/// Want of memory.
fn lent<'a>(alloc: Global, subscribers: &'a [Subscriber]) -> Result<Vec<Served<'a>>, AllocError>
    ensures { IfOk result (λ served. map told served.items ≡ map owned subscribers.now) }
{
    let mut served = Vec::new(alloc);
    'subscribers: for who in subscribers {
        served.push(Served {
            sub: who.sub,
            name: who.name.as_str(),
        })?;
    }
    Ok(served)
}

/// Whether `subscribers` have the numbers and names of the subscriptions `served`, in their order.
fn are_those(subscribers: &[Subscriber], served: &[Served<'_>]) -> bool
    ensures { IsTrue result ↔ map owned subscribers.now ≡ map told served.now }
{
    if subscribers.len() != served.len() {
        return false;
    }
    'subscribers: for place in 0..subscribers.len() {
        if !subscribers[place].is(&served[place]) {
            return false;
        }
    }
    true
}

impl Subscriber {
    /// Whether it has the number and the name of `who`.
    fn is(&self, who: &Served<'_>) -> bool
        ensures { IsTrue result ↔ owned self.now ≡ told who.now }
    {
        self.sub == who.sub && self.name.as_bytes() == who.name.as_bytes()
    }
}
