//! Workers: the messages of one piece are prepared by several threads, and handed back in their order.
ghost use Rattle.std.specs.Prelude.{◌≡◌, ◌≤◌, IfSome};

use crate::helper::Helper;
use crate::preparing::prepare_list;
use bytes::Bytes;
use mediator_shares::Workspace;
use prepared_message::{Prepared, Snapshot};
use std::alloc::{AllocError, Global};
use std::mem;
use std::sync::{Arc, Wait};
use std::thread::Scope;
use std::vec::IntoIter;

/// The most workers that there may be.
pub const MOST_WORKERS: u64 = 64;

/// How many lists of the messages of one piece each helper is handed: the fewer messages a list has, the sooner the first are
/// there, and the fewer lists there are, the less is told. All of them have room.
const LISTS_EACH: usize = 3;

/// Workers: the thread that has this, and those that help it. What each has worked out for the messages that it prepared is kept for
/// those to come.
#[derive(Drop)]
pub struct Workers {
    alloc: Global,
    /// How many there are to be once there is work for several: 1 when they were started.
    wanted: u64,
    helpers: Vec<Helper>,
    workspace: Workspace,
    /// The messages that come next, as they were prepared.
    next: IntoIter<Option<Prepared>>,
    /// How many lists were ordered of the helpers, one after another, and how many of these they have answered.
    ordered: usize,
    taken: usize,
}

impl Workers {
    /// A number `count` of workers, 1 to 64, where other numbers are as good as the nearest of these. None is started yet. What they
    /// come to keep is in memory from `alloc`; this call takes none.
    pub fn new(alloc: Global, count: u64) -> Workers {
        Workers {
            alloc,
            wanted: count.min(MOST_WORKERS),
            helpers: Vec::new(alloc),
            workspace: Workspace::new(),
            next: Vec::new(alloc).into_iter(),
            ordered: 0,
            taken: 0,
        }
    }

    /// Asks for `messages` to be prepared against `snapshot`, those of one piece, which [`next`](Workers::next) hands back then. The
    /// first of them are prepared by this call. What was asked for before and not handed back is forgotten; `rt` waits for that.
    /// Where there are several messages for the first time, `scope` starts the threads of all workers but one: as many as there are
    /// threads and memory for. They stay, and wait on `rt`.
    ///
    /// # Errors
    /// Want of memory. Then some of the messages may be prepared.
    pub fn ask<'s, 'r: 's, X: 's, R: Wait + Sync>(
        &mut self,
        rt: &'r R,
        scope: &Scope<'s, X>,
        snapshot: Snapshot,
        messages: Vec<Bytes>,
    ) -> Result<(), AllocError> {
        self.forget(rt);
        let snapshot = Arc::new(self.alloc, snapshot)?;
        let mut messages = messages;
        if messages.len() > 1 {
            self.start_helpers(rt, scope);
            let rest = messages.split_off(self.own(messages.len()))?;
            self.order(&snapshot, rest)?;
        }
        let list = prepare_list(self.alloc, &snapshot, messages, &mut self.workspace);
        self.next = list.into_iter();
        Ok(())
    }

    /// Has `scope` start the helpers, once.
    fn start_helpers<'s, 'r: 's, X: 's, R: Wait + Sync>(
        &mut self,
        rt: &'r R,
        scope: &Scope<'s, X>,
    ) {
        for _ in 1..self.wanted {
            let Some(helper) = Helper::start(rt, self.alloc, scope) else {
                break;
            };
            if self.helpers.push(helper).is_err() {
                break;
            }
        }
        self.wanted = 1;
    }

    /// How many of this many messages are prepared by the thread that asks: all, where there is no helper, and else fewer than a
    /// helper is handed at once.
    fn own(&self, messages: usize) -> usize
        ensures { result ≤ messages }
    {
        if self.helpers.is_empty() {
            return messages;
        }
        let own = messages / self.lists().saturating_add(LISTS_EACH);
        messages.min(own.saturating_add(1))
    }

    /// The next one of the messages that were asked for, `message`, as it was prepared; or `None` where it wasn't. It waits on `rt`
    /// for the helper that has it.
    pub fn next<R: Wait>(&mut self, rt: &R, message: &Bytes) -> Option<Prepared>
        ensures { IfSome result (λ p. p.message ≡ message.now) }
    {
        let prepared = self.take(rt)?;
        if prepared.message() == message {
            Some(prepared)
        } else {
            None
        }
    }

    /// How many lists the helpers are handed of one piece.
    fn lists(&self) -> usize {
        self.helpers.len().saturating_mul(LISTS_EACH)
    }

    /// Hands `messages` to the helpers, in lists of as many messages each, one after another.
    ///
    /// # Errors
    /// Want of memory: some may have been handed over.
    fn order(&mut self, snapshot: &Arc<Snapshot>, messages: Vec<Bytes>) -> Result<(), AllocError> {
        let mut rest = messages;
        let lists = self.lists();
        let len = (rest.len() / lists.max(1)).saturating_add(1);
        for _ in 0..lists {
            let later = rest.split_off(rest.len().min(len))?;
            let list = mem::replace(&mut rest, later);
            if list.is_empty() || !self.order_list(snapshot.clone()?, list) {
                break;
            }
        }
        Ok(())
    }

    /// Hands a list to the helper whose turn it is, and answers whether it took it.
    fn order_list(&mut self, snapshot: Arc<Snapshot>, messages: Vec<Bytes>) -> bool {
        let Some(place) = self.ordered.checked_rem(self.helpers.len()) else {
            return false;
        };
        let Some(helper) = self.helpers.as_mut_slice().get_mut(place) else {
            return false;
        };
        if !helper.order(snapshot, messages) {
            return false;
        }
        self.ordered = self.ordered.saturating_add(1);
        true
    }

    /// The next one of the messages as it was prepared.
    fn take<R: Wait>(&mut self, rt: &R) -> Option<Prepared> {
        for _ in rt.forever() {
            if let Some(prepared) = self.next.next() {
                return prepared;
            }
            self.next = self.take_list(rt)?.into_iter();
        }
        None
    }

    /// What was prepared of the list that was ordered first of those that are not taken; or `None` where all are.
    fn take_list<R: Wait>(&mut self, rt: &R) -> Option<Vec<Option<Prepared>>> {
        if self.taken >= self.ordered {
            return None;
        }
        let place = self.taken.checked_rem(self.helpers.len())?;
        self.taken = self.taken.saturating_add(1);
        let helper = self.helpers.as_mut_slice().get_mut(place)?;
        Some(helper.take(rt, self.alloc))
    }

    /// Takes what was ordered and is not taken yet.
    fn forget<R: Wait>(&mut self, rt: &R) {
        for _ in self.taken..self.ordered {
            let _forgotten = self.take_list(rt);
        }
        self.next = Vec::new(self.alloc).into_iter();
        self.ordered = 0;
        self.taken = 0;
    }
}
