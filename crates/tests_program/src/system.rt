//! What the tests ask of the system, under one name.

use std::rt::Files;
use std::sync::Wait;
use std::thread::Threads;

/// Files, memory, and threads that wait for one another. Where a file is left to a thread, that it may be is a bound beside it.
pub(crate) trait System: Files + AllocGlobal + Threads + Wait + Copy + Send + Drop + 'static {}

impl<R: Files + AllocGlobal + Threads + Wait + Copy + Send + Drop + 'static> System for R {}
