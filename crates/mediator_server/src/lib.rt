//! A server on sockets: exporters and administrators connect to it, and it connects to collectors. Each exporter and each collector
//! is served in a thread of its own, and administrators one after another. What is done over one connection is
//! `mediator_connections`', whose names this crate has too; the mediating is `shared_mediator`'s.
//!
//! - `listening`: [`listen`], which serves a mediator as a [`RunPlan`] says (`plan`).
//! - `service` has the threads: that which takes who comes in by the `listeners`, and those of `exporters`, `collectors` and
//!   `administrators`, which tell each other by `run_state` how far the run is.
//! - `connections` has the connections that are open; `stream_calls`, `socket_options` and `send_queue` what is done on one.
//! - `roster` has the subscriptions, and `report` what an administrator is told; `notes` is what the log is told. `machine_clock` and
//!   `time` are the clocks.
//!
//! Proved of `listen`: where the answer is `Ok`, the history has gone on from that of the mediator handed in, and each message,
//! edit, begin and end of a subscription and advance of the clock in it since then has a receipt of its own; those of one handle
//! are an edit by the plan's policy and a subscription for each of its collectors, in order; and it answers how many messages are
//! among all, and how many records were handed out (`served`). Beyond that it is safe. What goes over sockets, and that all ends,
//! is shown by tests over loopback alone; `bench/interop` runs it with real tools. Nothing promises that a call
//! returns.
#![tactic(auto)]

mod administrators;
mod collectors;
mod connections;
mod exporters;
mod listeners;
mod listening;
mod machine_clock;
mod notes;
mod plan;
mod report;
mod roster;
mod run_state;
mod send_queue;
mod service;
mod socket_options;
mod stream_calls;
mod time;

pub use listening::{Ended, Fault, listen};
pub use mediator_connections::{
    Clock, Collector, Control, Fault as ServeFault, Patience, Reception, ServedExporter, deliver,
    serve_admin, serve_exporter,
};
pub use plan::RunPlan;
