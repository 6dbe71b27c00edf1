//! The handles by which the program asks the system for anything, under one name.

use std::env::Env;
use std::random::RandomSource;
use std::rt::Files;
use std::sync::Wait;
use std::thread::Threads;
use std::time::Clock;

/// What the program asks of the system beside connections: files and memory, and for a server threads, locks, the time, the
/// environment and numbers that nobody knows.
pub trait System: Files
    + AllocGlobal
    + Threads
    + Wait
    + Clock
    + Env
    + RandomSource
    + Copy
    + Send
    + Sync
    + Drop
    + 'static {}

impl<
    R: Files
        + AllocGlobal
        + Threads
        + Wait
        + Clock
        + Env
        + RandomSource
        + Copy
        + Send
        + Sync
        + Drop
        + 'static,
> System for R {}
