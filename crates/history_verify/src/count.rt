//! How much a history disclosed to one subscription.

use policy_text::Name;

/// How many records a history disclosed to one subscription.
#[derive(Debug, Drop)]
pub struct SubscriptionCount {
    /// The number of the subscription.
    pub sub: u64,
    /// Its subscriber's name.
    pub name: Name,
    /// The number of the records that it was given, with those of closed aggregates.
    pub disclosed: u64,
}
