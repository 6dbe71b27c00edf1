//! Tests of the mediator's state over a journal and over its sizes alone, side by side, and of a mediator's run. Nothing else is here,
//! and no crate stands on it.
//!
//! - `cases`, `aggregates`: the calls of each worked case, with what they must answer; `octets`: the messages in them.
//! - `calls`: each call, made again where memory is refused.
//! - `worked`: the cases, carried out; `runs`: these cases as lists of calls on a mediator.
//! - `prepared`: messages that are prepared before another message of their session comes. `twins`: two mediators that get the
//!   same calls, one of them prepared messages; `changes`: what changes between preparing and receiving; `flows`: the messages;
//!   `steps`: all of it, many times.
//! - `retried`: each call of a mediator, made again where memory is refused.
//! - `examples`: of the doc comments of `mediator_calls` and `mediator_core`.
#![tactic(auto)]

#[cfg(test)]
mod aggregates;
#[cfg(test)]
mod calls;
#[cfg(test)]
mod cases;
#[cfg(test)]
mod changes;
#[cfg(test)]
mod examples;
#[cfg(test)]
mod flows;
#[cfg(test)]
mod octets;
#[cfg(test)]
mod prepared;
#[cfg(test)]
mod retried;
#[cfg(test)]
mod runs;
#[cfg(test)]
mod steps;
#[cfg(test)]
mod twins;
#[cfg(test)]
mod worked;
