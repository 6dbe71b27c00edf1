//! Where deliveries wait.
ghost use Rattle.std.specs.Prelude.{◌<◌, IfSome};
ghost use Rattle.shared_mediator.specs.declared.waits.TheConstants.{PLACES};

use mediator_calls::SubId;
use std::array;
use std::sync::Condvar;
use std::sync::atomic::{AtomicU64, Ordering};

/// How many deliveries may each wait at a place of their own. Further ones wait together.
pub(crate) const PLACES: usize = 64;

/// The places at which deliveries wait, so that one can be woken that has something, and others are left alone. A place
/// is taken and left while the mediator's lock is held.
#[derive(Drop)]
pub(crate) struct Waits {
    /// Whose delivery waits at a place: the number of its subscription; 0, which no subscription has, where none waits.
    subs: [AtomicU64; PLACES],
    /// Each is signalled for the delivery at its place.
    signals: [Condvar; PLACES],
    /// How many deliveries found no place, and wait together.
    crowded: AtomicU64,
    /// Signalled whenever any is, for these.
    crowd: Condvar,
}

impl Waits {
    /// Nobody waits.
    pub(crate) fn new() -> Waits {
        Waits {
            subs: array::from_fn(|_| AtomicU64::new(0)),
            signals: array::from_fn(|_| Condvar::new()),
            crowded: AtomicU64::new(0),
            crowd: Condvar::new(),
        }
    }

    /// Whether no delivery waits. This may be asked without the mediator's lock, by who held it before: a delivery comes
    /// here while it holds the lock, once it has seen that nothing is queued for it. So one that isn't here yet sees
    /// what was queued before it comes.
    pub(crate) fn are_empty(&self) -> bool {
        for place in 0..PLACES {
            if self.subs[place].load(Ordering::SeqCst) != 0 {
                return false;
            }
        }
        self.crowded.load(Ordering::SeqCst) == 0
    }

    /// Takes a place for the delivery of the subscription with the number `sub`; `None` where all are taken.
    pub(crate) fn take(&self, sub: SubId) -> Option<usize>
        ensures { IfSome result (λ place. place < PLACES) }
    {
        for place in 0..PLACES {
            if self.subs[place].load(Ordering::SeqCst) == 0 {
                self.subs[place].store(sub.0, Ordering::SeqCst);
                return Some(place);
            }
        }
        None
    }

    /// Leaves a place that was taken.
    pub(crate) fn leave(&self, place: usize)
        requires { place < PLACES }
    {
        self.subs[place].store(0, Ordering::SeqCst);
    }

    /// The subscription whose delivery waits at a place.
    pub(crate) fn sub_at(&self, place: usize) -> Option<SubId>
        requires { place < PLACES }
    {
        match self.subs[place].load(Ordering::SeqCst) {
            0 => None,
            sub => Some(SubId(sub)),
        }
    }

    /// What is signalled for the delivery at a place.
    pub(crate) fn signal(&self, place: usize) -> &Condvar
        requires { place < PLACES }
    {
        &self.signals[place]
    }

    /// Joins those that found no place.
    pub(crate) fn join_crowd(&self) {
        self.crowded.fetch_add(1, Ordering::SeqCst);
    }

    /// Leaves them again.
    pub(crate) fn leave_crowd(&self) {
        self.crowded.fetch_sub(1, Ordering::SeqCst);
    }

    /// What is signalled for those that found no place.
    pub(crate) fn crowd(&self) -> &Condvar {
        &self.crowd
    }
}
