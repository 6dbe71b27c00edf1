//! The information elements of the mediator's profile: which there are, of what kind their values are,
//! how long these may be, and by what names a policy calls them (RFC 7011, RFC 7012, IANA's registry of
//! information elements). It reads no octets, and only a name takes memory.
//!
//! - [`addresses`]: the numbers of the elements that hold a flow's addresses.
//! - `element_id`: [`ElementId`], an element's number and enterprise.
//! - `kind`: [`Kind`], what an element's values are.
//! - `length`: [`allowed_length`] and [`full_width`], by kind.
//! - `registry`: [`kind_of`], over the registry's lines.
//! - `name`: [`name_of`] and [`by_name`], with their laws [`one_name`] and [`one_word`].
//!
//! Proved: each element's kind is the registry's, and bare octets for every other element and for every enterprise's,
//! enterprise 0 included (`kind_of`); which field lengths a kind allows (`allowed_length`); `name_of` writes the one
//! name of an element (`name`); `by_name` finds an element exactly where the text is its name, over all texts
//! (`found`, `only`). Laws: `one_name` (no two elements have one name), `one_word` (a name is one word of letters,
//! digits and `/`).
#![tactic(auto)]

pub mod addresses;
mod element_id;
mod kind;
mod length;
mod name;
mod registry;

pub use element_id::ElementId;
pub use kind::Kind;
pub use length::{allowed_length, full_width};
pub use name::{by_name, name_of, one_name, one_word};
pub use registry::kind_of;
