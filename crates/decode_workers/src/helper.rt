//! A thread that prepares messages for another one.

use crate::line::Line;
use crate::preparing::{PreparedList, prepare_list};
use bytes::Bytes;
use mediator_shares::Workspace;
use prepared_message::Snapshot;
use rtrb::{Consumer, Producer, RingBuffer};
use std::alloc::Global;
use std::sync::{Arc, Wait};
use std::thread::Scope;

/// How many lists of messages may wait for a helper, and as many answers for the thread that it helps.
const MOST_LISTS: usize = 4;

/// Messages that are to be prepared, and against what.
#[derive(Drop)]
struct Order {
    snapshot: Arc<Snapshot>,
    messages: Vec<Bytes>,
}

/// A helper, as the thread has it that it helps.
pub(crate) struct Helper {
    line: Arc<Line>,
    orders: Producer<Order>,
    answers: Consumer<PreparedList>,
}

impl Drop for Helper {
    /// The helper prepares what waits for it, and ends.
    fn drop(self) {
        self.line.close();
        let Helper {
            line: _,
            orders: _,
            answers: _,
        } = self;
    }
}

impl Helper {
    /// Has `scope` start a helper, which waits on `rt`. Memory is taken from `alloc`. `None` where there is no thread or no memory
    /// for it.
    pub(crate) fn start<'s, 'r: 's, X: 's, R: Wait + Sync>(
        rt: &'r R,
        alloc: Global,
        scope: &Scope<'s, X>,
    ) -> Option<Helper> {
        let line = Arc::new(alloc, Line::new()).ok()?;
        let theirs = line.clone().ok()?;
        let (orders, their_orders) = RingBuffer::new(alloc, MOST_LISTS).ok()?;
        let (their_answers, answers) = RingBuffer::new(alloc, MOST_LISTS).ok()?;
        match scope.spawn(move || help(rt, alloc, theirs, their_orders, their_answers)) {
            Ok(_helping) => Some(Helper {
                line,
                orders,
                answers,
            }),
            Err(_refused) => None,
        }
    }

    /// Hands over `messages`, to be prepared against `snapshot`, and answers whether it did: not where as many lists wait as may.
    pub(crate) fn order(&mut self, snapshot: Arc<Snapshot>, messages: Vec<Bytes>) -> bool {
        let is_ordered = self.orders.push(Order { snapshot, messages }).is_ok();
        self.line.tell_messages();
        is_ordered
    }

    /// What was prepared of the list that was handed over first of those of which this wasn't answered yet. It waits on `rt`
    /// until that is there, or the helper has ended: then it has no item.
    pub(crate) fn take<R: Wait>(&mut self, rt: &R, alloc: Global) -> PreparedList {
        let mut looks = 0;
        for _ in rt.forever() {
            let has_ended = self.line.has_ended();
            if let Ok(list) = self.answers.pop() {
                return list;
            }
            if has_ended {
                return Vec::new(alloc);
            }
            looks = self.line.wait_for_answers(rt, looks);
        }
        Vec::new(alloc)
    }
}

/// What a helper does: it prepares the lists of messages that come through `orders`, until no more come.
fn help<R: Wait>(
    rt: &R,
    alloc: Global,
    line: Arc<Line>,
    orders: Consumer<Order>,
    answers: Producer<PreparedList>,
) {
    let mut orders = orders;
    let mut answers = answers;
    let mut workspace = Workspace::new();
    for _ in rt.forever() {
        let is_closed = line.is_closed();
        match orders.pop() {
            Ok(Order { snapshot, messages }) => {
                let list = prepare_list(alloc, &snapshot, messages, &mut workspace);
                if answers.push(list).is_err() {
                    break;
                }
                line.tell_answers();
            }
            Err(_) if is_closed => break,
            Err(_) => line.wait_for_messages(rt),
        }
    }
    line.end();
}
