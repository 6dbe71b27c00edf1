//! A session that is open.

use ipfix_session::Session;

/// An open session: what its messages mean so far, and how many were accepted.
#[derive(Drop)]
pub struct OpenSession {
    /// What the session's messages mean so far.
    pub session: Session,
    /// How many of its messages were accepted.
    pub accepted: u64,
}
