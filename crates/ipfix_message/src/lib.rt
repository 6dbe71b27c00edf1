//! IPFIX messages: what one says, and where they stand in a stream of octets (RFC 7011).
//!
//! Nothing here waits or reads: octets come in as slices. It keeps no template and no sequence number:
//! those are a session's.
//!
//! - [`header`]: `Header` and `read_header`.
//! - [`item`]: `Item`, what a message defines, withdraws, refuses or brings.
//! - [`sets`]: `items`, all items of a message.
//! - [`fault`]: `Fault`, why octets are no message, and what ends a stream.
//! - [`laws`]: the grammar of messages and their reading are one (`grammar_is_read`, `one_message`).
//! - `framer`: `Framer`, which is fed pieces of a stream and answers the messages that became whole.
//! - `framing_laws`: `one_framing` and `any_pieces`, why the answers don't depend on the pieces.
//!
//! Proved: `read_header` is exact. `items` is `Ok` exactly on the messages of the grammar, with what they say
//! (`found`, `only`), and else names the first fault in reading order (`exact`). OutOfMemory says nothing else; it is
//! no answer to a fault of the header (`header`) or to a message without sets (`bare`). Whatever the pieces that a
//! `Framer` is fed: the messages answered so far, its fault and the octets that it holds are those of the pieces
//! joined, up to the first fault (`ok` and `err` of `feed`); a fault is shown at once and answered for good, no empty
//! answer hides one (`clear`), it is `BadVersion` or `BadLength` (`of_stream` of `fault`), and a piece that is refused
//! for memory changes nothing. Laws: `grammar_is_read`,
//! `one_message`; `one_framing`, `any_pieces`.
#![tactic(auto)]

pub mod fault;
mod framer;
mod framing_laws;
pub mod header;
pub mod item;
pub mod laws;
mod octets;
pub mod sets;
mod templates;

pub use fault::Fault;
pub use framer::Framer;
pub use framing_laws::{any_pieces, one_framing};
pub use header::{Header, read_header};
pub use item::Item;
pub use laws::{grammar_is_read, one_message};
pub use sets::items;
