//! The numbers by which callers name sessions and subscriptions.

/// The number of an exporter's session, from 1 on. It never comes again.
#[derive(Clone, Copy, Debug, PartialEq, Eq)]
pub struct SessionId(pub u64);

/// The number of a subscription, from 1 on. It never comes again.
#[derive(Clone, Copy, Debug, PartialEq, Eq)]
pub struct SubId(pub u64);
