//! One connection of a shared mediator, over any device: an exporter's stream is read and offered, a subscription's messages are
//! pulled and written, and an administrator's commands are read and answered. Each of the calls belongs to one thread and one
//! connection, and is generic over a `Source` or a `Sink`; the mediating is `shared_mediator`'s, the cutting of a stream into
//! messages `ipfix_reader`'s, and what lines mean `admin_text`'. Sockets and threads are `mediator_server`'s.
//!
//! - `exporter`: [`serve_exporter`], the messages of a stream.
//! - `delivery`: [`deliver`], the messages of a subscription. `collector`: [`Collector`], to whom they are sent.
//! - `admin`: [`serve_admin`], the commands of an administrator's connection, which `command_input` cuts out of its octets.
//! - `control`: [`Reception`] and [`Control`], what an exporter's and an administrator's connection ask of their server and tell it,
//!   and [`Patience`], how long they wait for room in the queues, as `room` does.
//! - `fault`: [`Fault`], why a call stops.
//!
//! [`Clock`], which tells the Export Times, is `shared_mediator`'s.
//!
//! Proved of `serve_exporter`: the messages that it adds to its handle's receipts, under the handle's session and numbered on,
//! are those that the octets that it read are cut into (RFC 7011, section 10.4): where the answer is `Ok`, all of them, and the
//! stream ended (`serves`); at a fault those before it (`stops`). Each fault stands only where its cause does: `Read` where the
//! reader has failed (`fails`), `Framing` where what was read is framed in that way, `Turns` where as many reads were made as are
//! allowed, `TooWide` where a message in hand is too wide by the templates of some session, `TooManyCounts` where more of its
//! records count than are allowed, by the templates of some session and on some terms, and `Mediator` where one was refused for
//! what a message may be refused for, or memory ran out.
//!
//! Proved of `deliver`: what it writes are the messages that its handle kept in that call, in order, each built for an Export
//! Time that the clock may show and for the target; all of them where the answer is `Ok` or a refusal, with their octets counted,
//! and at `Write` exactly the first `sent` octets of them, which end inside those of the last pull (`delivers`, `stops`). `Write`
//! stands only where the writer has failed (`fails`). The administrator's handle keeps nothing more but, at `Write`, the end of
//! this subscription (`unchanged`, `gone`).
//!
//! Proved of `serve_admin`: the octets that it read are lines with the texts behind them, and the octets that it wrote are their
//! answers, one for each line in order. Each answer is one that the line's call may give, and says what the handle kept: an `ok`
//! to an edit, a subscription, its end or an advance stands only where the handle has the receipt of just that call, and no other
//! answer where it has one. Where the answer is `Ok`, all commands were answered and are counted, and the input ended behind
//! them, or the last of them is a `stop`, and none before it is, or one line more is no command (`serves`). At a fault the
//! commands before were (`stops`), and `Read` and `Write` stand only where that device has failed (`reader_fails`,
//! `writer_fails`); at `Write` exactly `sent` octets of all answers were written, which end inside the last, and its call was
//! made; `Turns` stands only where as many reads were made as are allowed, and `CutOff` where the input ended inside a command.
//! No want of memory keeps an answer back; only a refusal for another reason may be answered as one for want of memory. Of a page
//! (`status` alone, `run`, `policy`, `help`) no clause says what stands on it.
//!
//! Shown by tests alone, in `tests_server`: that the session is closed and the subscription ended, which happens under the lock,
//! where no clause can look; and so why a call of an administrator is refused, how a subscription stands, what of the audit is
//! handed out, and what waits for room in a queue; and what a server is told and tells, and how many records waited when a delivery
//! failed. Nothing promises that a call returns.
#![tactic(auto)]

mod admin;
mod collector;
mod command_input;
mod control;
mod delivery;
mod exporter;
mod fault;
mod room;

pub use admin::serve_admin;
pub use collector::Collector;
pub use control::{Control, Patience, Reception};
pub use delivery::deliver;
pub use exporter::{ServedExporter, serve_exporter};
pub use fault::Fault;
pub use shared_mediator::Clock;
