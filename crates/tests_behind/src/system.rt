//! What the tests ask of the system, under one name.

use std::sync::Wait;
use std::thread::Threads;

/// Memory, and threads that wait for one another.
pub(crate) trait System: AllocGlobal + Threads + Wait + Copy + Send + Drop + 'static {}

impl<R: AllocGlobal + Threads + Wait + Copy + Send + Drop + 'static> System for R {}
