//! The settings of `ipmd serve`, read from TOML. It opens no file and makes no connection: addresses and names are texts
//! here, and whoever uses them says what is wrong with them.
//!
//! - `settings`: [`Settings`], what was read. [`Collector`] is that of `mediator_connections`.
//! - `reading`: [`read_settings`], with [`LONGEST_TEXT`].
//! - `key`: [`Key`], a key of settings. `fault`: [`Fault`], why a text gives no settings.
//! - `values`: what stands at a key.
//! - `laws`: [`allowed_limits_are_read`], proved over the definitions.
//!
//! Proved: `read_settings` answers `TooLong` exactly where the text has more than [`LONGEST_TEXT`] octets, and then needs no
//! memory; else what the definitions say of the parsed table: `Toml` exactly where the text is no TOML, else the first key, in
//! the order of the format, that must be there and isn't, or whose value is of another type or out of its range, else the
//! settings (`exact`). That it is the first such key is said once more without the order of reading (`first`). Seven keys may be
//! absent: without `journal` none is written, without `runs` there is one, without `idle`, `reconnect`, `hold` and `drain` there
//! is no number of them, and without `endless` a run isn't endless. The limits that come out are ones that a mediator takes
//! (`allowed`), and each that it takes comes out (`allowed_limits_are_read`). The collectors' subscribers ascend by their octets,
//! so that none stands twice (`sorted`). Want of memory says nothing.
#![tactic(auto)]

mod fault;
mod key;
mod laws;
mod reading;
mod settings;
mod values;

pub use fault::Fault;
pub use key::Key;
pub use laws::allowed_limits_are_read;
pub use mediator_connections::Collector;
pub use reading::{LONGEST_TEXT, read_settings};
pub use settings::Settings;
