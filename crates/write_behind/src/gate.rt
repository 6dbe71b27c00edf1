//! What two threads tell each other beside the octets that one hands the other.

use std::sync::Wait;
use std::sync::atomic::{AtomicBool, Ordering};
use std::thread::Parker;
use std::time::Duration;

/// How long a writer's thread waits, in microseconds, before it looks again whether there are octets.
const DOZE: u64 = 200;

/// How often it looks in vain before it waits until it is woken.
const LOOKS: u32 = 25;

/// What a writer's thread and the thread that hands it octets tell each other.
#[derive(Drop)]
pub struct Gate {
    /// On which the writer's thread waits for octets.
    octets: Parker,
    /// On which the other thread waits for room.
    room: Parker,
    /// Whether no more octets come.
    is_closed: AtomicBool,
    /// Whether the writer's thread ended because its writer failed.
    has_stopped: AtomicBool,
    /// Whether the writer's thread waits until it is woken.
    is_asleep: AtomicBool,
}

impl Gate {
    /// A gate that is open.
    pub fn new() -> Gate {
        Gate {
            octets: Parker::new(),
            room: Parker::new(),
            is_closed: AtomicBool::new(false),
            has_stopped: AtomicBool::new(false),
            is_asleep: AtomicBool::new(false),
        }
    }

    // ---- told by the thread that hands over octets

    /// Octets came: wakes the writer's thread where it would sleep on.
    pub fn tell_octets(&self) {
        if self.is_asleep.load(Ordering::SeqCst) {
            self.is_asleep.store(false, Ordering::SeqCst);
            self.octets.unpark();
        }
    }

    /// There is no room for octets: has the writer's thread make some, and waits on `rt` until it has, or has stopped.
    pub fn wait_for_room<R: Wait>(&self, rt: &R) {
        self.octets.unpark();
        self.room.park(rt);
    }

    /// No more octets come.
    pub fn close(&self) {
        self.is_closed.store(true, Ordering::SeqCst);
        self.octets.unpark();
    }

    /// Whether the writer's thread has stopped by itself.
    pub fn has_stopped(&self) -> bool {
        self.has_stopped.load(Ordering::SeqCst)
    }

    // ---- told by the writer's thread

    /// There is room for octets.
    pub fn tell_room(&self) {
        self.room.unpark();
    }

    /// The writer has failed, and its thread ends.
    pub fn stop(&self) {
        self.has_stopped.store(true, Ordering::SeqCst);
        self.room.unpark();
    }

    /// Whether no more octets come.
    pub fn is_closed(&self) -> bool {
        self.is_closed.load(Ordering::SeqCst)
    }

    /// Waits on `rt` for octets, after a number `looks` of looks at nothing, and answers that number after one more: the first few times it
    /// waits for a moment, and then until it is woken. Octets that came meanwhile are there for the next look.
    pub fn wait_for_octets<R: Wait>(&self, rt: &R, looks: u32) -> u32 {
        if looks < LOOKS {
            self.octets.park_timeout(rt, Duration::from_micros(DOZE));
        } else if looks == LOOKS {
            // One look more, now that who hands over octets knows of it.
            self.is_asleep.store(true, Ordering::SeqCst);
        } else {
            self.octets.park(rt);
            return 0;
        }
        looks + 1
    }
}
