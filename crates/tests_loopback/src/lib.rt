//! Tests of a server on sockets, over the loopback interface. Nothing else is here, and no crate stands on it. Each test finds
//! free ports, ends by itself, and tells the same whatever the schedule.
//!
//! - `serving`: what an exporter, an administrator and collectors get, and what is noted of them.
//! - `plans`: that a plan's numbers reach the calls, and what is set on a collector's socket. `times`: by which clock messages are
//!   stamped.
//! - `stage`: a server's plan with free addresses, and its collectors' listeners. `play`: a run with all its peers. `peers`: who
//!   connects to a server. `world`: what a server is run on. `octets`: messages.
//!
//! What many peers and hostile ones do is tested by `tests/`, on the program.
#![tactic(auto)]

#[cfg(test)]
mod octets;
#[cfg(test)]
mod peers;
#[cfg(test)]
mod plans;
#[cfg(test)]
mod play;
#[cfg(test)]
mod serving;
#[cfg(test)]
mod stage;
#[cfg(test)]
mod times;
#[cfg(test)]
mod world;
