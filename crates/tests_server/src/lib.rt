//! Tests of serving a shared mediator over memory: an exporter's stream, a delivery and an administrator's connection, each by
//! itself, over readers and writers that do little at a time, or fail. They show what happens under the lock, where no clause can
//! look. Nothing else is here, and no crate stands on it. Each test ends by itself: whatever is waited for has come before, or
//! comes from another thread of the test.
//!
//! - `stage`: a case is played on a new shared mediator, which is closed then.
//! - `octets`: messages and streams; `returned_handles`: the handles, and messages that are offered before.
//! - `serving`: of `serve_exporter`. `delivering`: of `deliver`. `administering`: of `serve_admin`. `holding`: what waits for room.
//! - `server`: what a connection tells and asks its server, noted.
#![tactic(auto)]

#[cfg(test)]
mod administering;
#[cfg(test)]
mod delivering;
#[cfg(test)]
mod holding;
#[cfg(test)]
mod octets;
#[cfg(test)]
mod returned_handles;
#[cfg(test)]
mod server;
#[cfg(test)]
mod serving;
#[cfg(test)]
mod stage;
