//! The journal of an IPFIX mediator: what it accepted, in order, up to limits on the number of entries and on the octets
//! that they count for. The journal, its limits and its sizes are this project's own rules; no RFC speaks of them.
//!
//! - `entry`: [`Entry`], one thing that was accepted.
//! - `text`: [`PolicyText`], the text of an edit.
//! - `journal`: [`Journal`], which keeps the entries; `edits`: the text of the last edit among them.
//! - `sizes`: [`JournalSizes`], which keeps their number and their octets alone, for a run that is not to grow.
//! - `chronicle`: [`Chronicle`], the trait of both: what stands on it is proved once.
//! - `limits`: [`MOST_ENTRIES`] and [`MOST_OCTETS`].
//! - `laws`: [`octets_add_up`] and [`room_in_turn`], proved over the definitions.
//! - `room`: which entries fit.
//!
//! Proved: `room` is true exactly where both limits leave room for all the entries and a journal file can spell each of
//! them. `reserve` keeps all but the reserved room, fails only for want of memory, and takes none where the room is
//! reserved already (`no_memory`); `push_reserved` puts its entry behind the others, takes no memory and cannot fail. `len`
//! and `octets` are those of the entries (`value`), within limits that stand in their ranges (`within`, `limits`), and
//! `get` answers the entry at its position, or `None` past the last one. `last_edit` is the text of the last edit. A journal
//! file can spell each entry of every journal (`spelled` of `len`). [`JournalSizes`] answer as a [`Journal`] of the same
//! entries: each history that either tells, as [`Chronicle`] says, has its number of entries and its octets (`counted`),
//! is still told after `reserve` (`tells`), and after `push_reserved` goes on with the entry (`tells`).
#![tactic(auto)]

mod chronicle;
mod edits;
mod entry;
mod journal;
mod laws;
mod limits;
mod room;
mod sizes;
mod text;

pub use chronicle::Chronicle;
pub use entry::Entry;
pub use journal::Journal;
pub use laws::{octets_add_up, room_in_turn};
pub use limits::{MOST_ENTRIES, MOST_OCTETS};
pub use sizes::JournalSizes;
pub use text::PolicyText;
