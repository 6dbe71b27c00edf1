//! Sessions: what the messages of one exporter mean, one after another (RFC 7011).
//!
//! It keeps, of each Observation Domain, the templates in force and the sequence number that comes next;
//! where messages begin and end in a stream is known before.
//!
//! - [`session`]: `Session`, which reads message after message: `apply`, or in three steps `read`, `make_room` and
//!   `keep`. A message that was read elsewhere is taken in by `note`, or by `reading_of` and the last two steps.
//! - [`templates`]: `Templates`, a session's templates as they stood, by which messages are read elsewhere: `share` and
//!   `templates` of the session give them.
//! - [`contents`]: `Contents`, what a message holds that was read so.
//! - [`reading`]: `Reading`, what was read of a message and is not yet kept.
//! - [`read`]: `Read`, what a message brings, with `Skips` and `Gap`.
//! - [`fault`]: `Fault`, why a message is refused.
//! - [`laws`]: messages mean what the first of them mean, and then the others (`messages_join`), and so do a
//!   message's items (`items_join`); and, in the standard's words, which template is in force
//!   (`last_definition_is_in_force`), which Sequence Number is expected (`last_message_sets_the_number`) and
//!   what a Data Set's content is (`records_are_read`). What a message that brings no template holds depends on the
//!   templates of its Data Sets alone (`same_templates_read_the_same`).
//!
//! Proved, for every list of earlier messages that a session stands for: `Session::apply` answers exactly the
//! records, skips and gap of the message after them, or its first fault (`meaning`), and then stands for that list
//! with the message (`stands`). A refused message changes nothing (`err`), and a header that is refused is named by
//! its fault alone (`header`). `template` is the template in force; a new session stands for no messages; a copy
//! stands for the same. The records that are answered are sound, by `Run`'s type. The laws are those above.
//!
//! Proved of messages that are read elsewhere: `templates` gives the templates that are in force after those messages
//! (`knows`), and `Templates::read` what a message holds after them, or its first fault. Where the message brings no
//! template, `note` gives its gap, and the session then stands for the list with it (`stands`), as it does by
//! `reading_of`, `make_room` and `keep`. The message may have been read after fewer messages or other ones: it holds the
//! same where the IDs of its Data Sets have the same templates (`same_templates_read_the_same`).
//!
//! A message is read over what it decides itself and the templates before it, and what it decides is taken over only
//! at its end, where it is accepted: so a refused message costs no more than an accepted one. No message copies
//! templates, unless it changes one while somebody else still owns those that the session shares.
#![tactic(auto)]

mod by_domain;
mod changes;
pub mod contents;
mod data_set;
pub mod fault;
pub mod laws;
mod numbers;
pub mod read;
pub mod reading;
pub mod session;
mod table;
mod tables;
mod template_map;
pub mod templates;
mod walk;

pub use contents::Contents;
pub use fault::Fault;
pub use laws::{
    items_join, last_definition_is_in_force, last_message_sets_the_number, messages_join,
    records_are_read, same_templates_read_the_same,
};
pub use read::{Gap, Read, Skips};
pub use reading::Reading;
pub use session::Session;
pub use templates::Templates;
