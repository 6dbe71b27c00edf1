//! A subscriber's own stream of IPFIX messages: what it is given are records, and what it hands out are
//! messages that announce each template under an ID of this stream before the first record of it
//! (RFC 7011, sections 3 and 8). Until they are handed out, the records of a run wait as the ID of their template and
//! their octets, each value in its shortest text, and a message copies those of consecutive records at once, or is one owner
//! more of them.
//!
//! - [`stream`]: `Stream`, which queues records and builds the messages.
//! - [`message_pieces`]: `MessagePieces`, a message whose records' octets are shared with what else has them, and so aren't
//!   copied before it is sent.
//! - [`limits`]: `StreamLimits`, how many records may wait, and how many templates may be announced; the greatest of
//!   each, [`MOST_QUEUE`] and [`MOST_SHAPES`].
//! - [`laws`]: what a subscriber gets is a function of the records and the pulls (`octets_of_pulls`); which sets
//!   a message has (`sets_are_longest`) and how many parts (`longest_run`).
//!
//! Proved, for every list and place that a stream stands at: `Stream::pull` answers exactly the message built there
//! for its `now` and `target`, the longest run of announcements and records that fits or one part, and then stands
//! after it (`ok`); `pull_pieces` does so in pieces, and `pull_to` in a list that it is lent. It answers `None`
//! exactly where nothing is queued (`end`), which takes no memory (`no_memory`), and a refused pull changes nothing
//! (`err`). `room` is exact (`room`, `exact`). `reserve` changes nothing but the reserved room, and takes no memory
//! where that is enough (`no_memory`). `push_reserved` takes no memory, and the list is then that list followed by
//! the records (`ok`). `queued`, `handed` and `shapes` are exact. The type keeps that the octets of each record that
//! waits are its values' (`IsEntry`), so that a copy of them is the record. Laws: `octets_of_pulls`,
//! `parts_bring_the_list`, `parts_go_on`, `shapes_go_on`, `one_shape`, `sets_are_longest`, `longest_run`.
#![tactic(auto)]

mod announcing;
mod composing;
mod fitting;
pub mod laws;
pub mod limits;
pub mod message_pieces;
mod room;
mod shape_table;
pub mod stream;
mod texts;
mod waiting;
mod writing;

pub use laws::{
    longest_run, octets_of_pulls, one_shape, parts_bring_the_list, parts_go_on, sets_are_longest,
    shapes_go_on,
};
pub use limits::{MOST_QUEUE, MOST_SHAPES, StreamLimits};
pub use message_pieces::MessagePieces;
pub use stream::Stream;
