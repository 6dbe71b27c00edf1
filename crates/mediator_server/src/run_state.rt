//! How far a run is, as its threads tell each other.

use crate::connections::Connection;
use crate::time::{has_passed, now};
use mediator_state::Receipt;
use mio::Waker;
use std::alloc::Global;
use std::sync::{Condvar, CondvarTimeouts, Mutex, Wait};
use std::time::{Clock, Duration};

/// How many administrators may wait for the one before them to end.
const MOST_WAITING: usize = 8;

/// An administrator from which nothing came for this many seconds is silent.
const SILENCE: u64 = 10;

/// For this many seconds at most an administrator is served, or waited for, when no exporter is there and none may come.
const LAST_WORDS: u64 = 10;

/// How many milliseconds a wait lasts at most before it is looked again.
const LOOK_EACH: u64 = 250;

/// What the threads of a run tell each other: who is still to be served, and how many records came.
#[derive(Drop)]
pub(crate) struct RunState {
    standing: Mutex<Standing>,
    changed: Condvar,
    waker: Waker,
}

/// What a lock guards: how far the run is, and what came.
#[derive(Drop)]
struct Standing {
    /// Whether an administrator has stopped the run.
    is_stopped: bool,
    /// Whether no exporter is taken any more, and those that are there end behind the message in hand.
    is_closing: bool,
    /// Since when no exporter is there, and none may come.
    exporters_gone: Option<Duration>,
    /// The administrators that wait to be served, in the order in which they came.
    waiting: Vec<Connection>,
    /// Whether an administrator was ever served.
    was_administered: bool,
    /// Whether no administrator is served any more.
    is_administered: bool,
    /// Whether what is queued is sent, and nothing more comes.
    is_draining: bool,
    /// What came.
    counts: RunCounts,
    /// How many records there were before the last message that cut a subscription.
    records_before_cut: u64,
}

/// What came in a run.
#[derive(Clone, Copy)]
pub(crate) struct RunCounts {
    /// The messages that were accepted.
    pub(crate) messages: u64,
    /// The records in them.
    pub(crate) records: u64,
    /// The gaps in their Sequence Numbers.
    pub(crate) gaps: u64,
    /// The messages that were not accepted.
    pub(crate) refused: u64,
    /// The policies that took force, the first among them.
    pub(crate) edits: u64,
    /// Where the clock stands, in milliseconds since 1970; 0 where it was never advanced.
    pub(crate) clock: u64,
}

/// What ends an administrator's connection.
#[derive(Clone, Copy, PartialEq, Eq)]
pub(crate) enum Dismissal {
    /// It was silent for long, and another waits.
    Silent,
    /// The run ends.
    Closing,
}

impl RunState {
    /// A run that begins. `waker` ends the wait for somebody to come.
    pub(crate) fn new(alloc: Global, waker: Waker) -> RunState {
        let waiting = Vec::new(alloc);
        RunState {
            standing: Mutex::new(Standing {
                is_stopped: false,
                is_closing: false,
                exporters_gone: None,
                waiting,
                was_administered: false,
                is_administered: true,
                is_draining: false,
                counts: RunCounts {
                    messages: 0,
                    records: 0,
                    gaps: 0,
                    refused: 0,
                    edits: 1,
                    clock: 0,
                },
                records_before_cut: 0,
            }),
            changed: Condvar::new(),
            waker,
        }
    }

    /// Ends the wait for somebody to come, so that it is looked how far the run is.
    pub(crate) fn wake(&self) {
        let _woken = self.waker.wake();
        self.changed.notify_all();
    }

    /// An administrator stops the run.
    pub(crate) fn stop(&self, rt: &impl Wait) {
        let mut standing = self.standing.lock(rt);
        standing.is_stopped = true;
        standing.is_closing = true;
        drop(standing);
        self.wake();
    }

    /// Whether an administrator has stopped the run.
    pub(crate) fn is_stopped(&self, rt: &impl Wait) -> bool {
        self.standing.lock(rt).is_stopped
    }

    /// No exporter is taken any more, and those that are there end behind the message in hand. Answers whether that is so only now.
    pub(crate) fn close(&self, rt: &impl Wait) -> bool {
        let mut standing = self.standing.lock(rt);
        let was_closing = standing.is_closing;
        standing.is_closing = true;
        drop(standing);
        self.wake();
        !was_closing
    }

    /// Whether exporters are to end behind the message in hand.
    pub(crate) fn is_closing(&self, rt: &impl Wait) -> bool {
        self.standing.lock(rt).is_closing
    }

    /// No exporter is there, and none may come.
    pub(crate) fn note_exporters_gone<R: Wait + Clock>(&self, rt: &R) {
        let mut standing = self.standing.lock(rt);
        if standing.exporters_gone.is_none() {
            standing.exporters_gone = Some(now(rt));
            drop(standing);
            self.changed.notify_all();
        }
    }

    /// Whether administrators are served.
    pub(crate) fn is_administered(&self, rt: &impl Wait) -> bool {
        self.standing.lock(rt).is_administered
    }

    /// What is queued is to be sent, and nothing more comes.
    pub(crate) fn drain(&self, rt: &impl Wait) {
        let mut standing = self.standing.lock(rt);
        standing.is_draining = true;
        drop(standing);
        self.changed.notify_all();
    }

    /// Whether nothing more comes.
    pub(crate) fn is_draining(&self, rt: &impl Wait) -> bool {
        self.standing.lock(rt).is_draining
    }

    /// Waits until nothing more comes, and no longer than `duration`.
    pub(crate) fn wait_until_draining<R: Wait + Clock>(&self, rt: &R, duration: Duration) {
        let begun = now(rt);
        let mut standing = self.standing.lock(rt);
        for _ in rt.forever() {
            if standing.is_draining || has_passed(rt, begun, duration) {
                return;
            }
            let (again, _late) = self
                .changed
                .wait_timeout(rt, standing, Duration::from_millis(LOOK_EACH));
            standing = again;
        }
    }

    /// A message was accepted.
    pub(crate) fn add_message(&self, rt: &impl Wait, receipt: &Receipt) {
        let mut standing = self.standing.lock(rt);
        if receipt.cut > 0 {
            standing.records_before_cut = standing.counts.records;
        }
        let counts = standing.counts;
        standing.counts = RunCounts {
            messages: counts.messages.saturating_add(1),
            records: counts.records.saturating_add(receipt.records),
            gaps: counts.gaps.saturating_add(u64::from(receipt.gap.is_some())),
            ..counts
        };
    }

    /// A message was not accepted.
    pub(crate) fn add_refusal(&self, rt: &impl Wait) {
        let mut standing = self.standing.lock(rt);
        standing.counts.refused = standing.counts.refused.saturating_add(1);
    }

    /// A policy took force; answers which it is of the run.
    pub(crate) fn add_edit(&self, rt: &impl Wait) -> u64 {
        let mut standing = self.standing.lock(rt);
        standing.counts.edits = standing.counts.edits.saturating_add(1);
        standing.counts.edits
    }

    /// The clock stands at `t`, in milliseconds since 1970.
    pub(crate) fn set_clock(&self, rt: &impl Wait, t: u64) {
        self.standing.lock(rt).counts.clock = t;
    }

    /// What came.
    pub(crate) fn counts(&self, rt: &impl Wait) -> RunCounts {
        self.standing.lock(rt).counts
    }

    /// How many records were accepted in all; or, with `before_cut`, how many before the last message that cut a subscription.
    pub(crate) fn records(&self, rt: &impl Wait, before_cut: bool) -> u64 {
        let standing = self.standing.lock(rt);
        if before_cut {
            standing.records_before_cut
        } else {
            standing.counts.records
        }
    }
}

/// The administrators, one after another.
impl RunState {
    /// Has an administrator wait to be served; hands it back where too many wait.
    pub(crate) fn admit(&self, rt: &impl Wait, connection: Connection) -> Result<(), Connection> {
        let mut standing = self.standing.lock(rt);
        if !standing.is_administered
            || standing.waiting.len() >= MOST_WAITING
            || standing.waiting.reserve(1).is_err()
        {
            return Err(connection);
        }
        standing.waiting.push_reserved(connection);
        drop(standing);
        self.changed.notify_all();
        Ok(())
    }

    /// The next administrator, when one is there; none when none is to be served any more: the exporters have gone, and one was
    /// served, or none came for a while.
    pub(crate) fn next_administrator<R: Wait + Clock>(&self, rt: &R) -> Option<Connection> {
        let mut standing = self.standing.lock(rt);
        for _ in rt.forever() {
            if let Some(gone) = standing.exporters_gone {
                let late = has_passed(rt, gone, Duration::from_secs(LAST_WORDS));
                let served = standing.was_administered && standing.waiting.is_empty();
                if standing.is_stopped || late || served {
                    standing.is_administered = false;
                    standing.waiting.clear();
                    drop(standing);
                    self.wake();
                    return None;
                }
            }
            if !standing.waiting.is_empty() && !standing.is_stopped {
                standing.was_administered = true;
                return Some(standing.waiting.remove(0));
            }
            let (again, _late) = self
                .changed
                .wait_timeout(rt, standing, Duration::from_millis(LOOK_EACH));
            standing = again;
        }
        unreachable!()
    }

    /// Whether an administrator's time is over, from which something came last at `heard`; and why.
    pub(crate) fn dismissal<R: Wait + Clock>(&self, rt: &R, heard: Duration) -> Option<Dismissal> {
        let standing = self.standing.lock(rt);
        if let Some(gone) = standing.exporters_gone {
            if standing.is_stopped || has_passed(rt, gone, Duration::from_secs(LAST_WORDS)) {
                return Some(Dismissal::Closing);
            }
        }
        if !standing.waiting.is_empty() && has_passed(rt, heard, Duration::from_secs(SILENCE)) {
            return Some(Dismissal::Silent);
        }
        None
    }
}
