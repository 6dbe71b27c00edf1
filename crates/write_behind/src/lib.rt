//! A writer that leaves writing to a thread of its own, so that its caller works on meanwhile.
//!
//! - `write_behind`: [`WriteBehind`], the writer.
//! - `state`: where the inner writer is: here, with its thread, or back from one that stopped.
//! - `thread`: what the thread does, and what it promises.
//! - `gate`: [`Gate`], what two threads tell each other beside octets.
//!
//! Octets go through a ring (`rtrb`) of fixed length, so a caller that is faster than the writer waits. While octets come, the
//! thread looks for them by itself every 0.2 ms, and nobody wakes it; where none came for 5 ms it sleeps, and the next write
//! wakes it. So what is handed over leaves within a moment, also where nothing follows.
//!
//! Proved: what the writer holds (`contents`) is what the inner writer held, and behind it all that was handed over, each octet once
//! and in order; a flush keeps it, and so does a failure, where what the inner writer did not take counts too. `into_inner` gives
//! the inner writer back exactly where it holds all of that itself. That the thread is there at the same time, and that it ends,
//! is shown by tests alone.
#![tactic(auto)]

mod gate;
mod state;
mod thread;
mod write_behind;

pub use gate::Gate;
pub use write_behind::WriteBehind;
