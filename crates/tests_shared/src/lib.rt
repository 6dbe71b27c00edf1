//! Tests of a mediator that threads share: calls through handles, each in the thread that it is for. Nothing else is here, and
//! no crate stands on it. Each test ends by itself, and tells the same whatever the schedule.
//!
//! - `sharing`: a case is played through the handles of a new shared mediator, which is closed then.
//! - `octets`: the messages, the policies and the limits.
//! - `calls`: each call once by one thread, its refusals, and handles that are missing. `several`: three sessions and
//!   subscriptions, of which the second end, and an audit that is handed out by pieces. `waits`: what ends the waits of two
//!   threads. `crowd`: eight exporters and nine deliveries at once, and `replay`: the same journal replayed by one thread.
//! - `examples`: of the doc comment of `SharedMediator`.
#![tactic(auto)]

#[cfg(test)]
mod calls;
#[cfg(test)]
mod crowd;
#[cfg(test)]
mod examples;
#[cfg(test)]
mod octets;
#[cfg(test)]
mod replay;
#[cfg(test)]
mod several;
#[cfg(test)]
mod sharing;
#[cfg(test)]
mod waits;
