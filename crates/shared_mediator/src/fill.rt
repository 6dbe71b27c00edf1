//! How full a mediator is.

/// How full a mediator's journal and audit are.
#[derive(Clone, Copy, Debug, PartialEq, Eq)]
pub struct Fill {
    /// How many entries the journal has.
    pub entries: u64,
    /// The octets that they take in a journal's file.
    pub octets: u64,
    /// How many entries of the audit wait to be handed out.
    pub audit: u32,
}
