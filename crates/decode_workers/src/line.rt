//! What a helper and the thread that it helps tell each other, beside lists of messages.

use std::sync::Wait;
use std::sync::atomic::{AtomicBool, Ordering};
use std::thread::{Parker, yield_now};

/// How often an answer is looked for before its thread waits until it is woken. To be woken takes longer than most answers do.
const LOOKS: u32 = 300;

/// What a helper and the thread that it helps tell each other.
#[derive(Drop)]
pub(crate) struct Line {
    /// On which the helper waits for messages.
    messages: Parker,
    /// On which the other thread waits for answers.
    answers: Parker,
    /// Whether no more messages come.
    is_closed: AtomicBool,
    /// Whether no more answers come.
    has_ended: AtomicBool,
}

impl Line {
    /// A line that is open.
    pub(crate) fn new() -> Line {
        Line {
            messages: Parker::new(),
            answers: Parker::new(),
            is_closed: AtomicBool::new(false),
            has_ended: AtomicBool::new(false),
        }
    }

    // ---- told by the thread that is helped

    /// Messages came.
    pub(crate) fn tell_messages(&self) {
        self.messages.unpark();
    }

    /// No more messages come.
    pub(crate) fn close(&self) {
        self.is_closed.store(true, Ordering::SeqCst);
        self.messages.unpark();
    }

    /// Whether the helper has ended.
    pub(crate) fn has_ended(&self) -> bool {
        self.has_ended.load(Ordering::SeqCst)
    }

    /// Waits on `rt` for an answer, after a number `looks` of looks at none, and answers that number after one more.
    pub(crate) fn wait_for_answers<R: Wait>(&self, rt: &R, looks: u32) -> u32 {
        if looks < LOOKS {
            yield_now();
            return looks + 1;
        }
        self.answers.park(rt);
        looks
    }

    // ---- told by the helper

    /// An answer came.
    pub(crate) fn tell_answers(&self) {
        self.answers.unpark();
    }

    /// No more answers come.
    pub(crate) fn end(&self) {
        self.has_ended.store(true, Ordering::SeqCst);
        self.answers.unpark();
    }

    /// Whether no more messages come.
    pub(crate) fn is_closed(&self) -> bool {
        self.is_closed.load(Ordering::SeqCst)
    }

    /// Waits on `rt` for messages.
    pub(crate) fn wait_for_messages<R: Wait>(&self, rt: &R) {
        self.messages.park(rt);
    }
}
