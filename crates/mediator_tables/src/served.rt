//! A subscription that is served, as those see it who judge records for it.

/// A subscription that is served: it is live and was not cut.
#[derive(Clone, Copy, Debug)]
pub struct Served<'a> {
    /// Its number.
    pub sub: u64,
    /// Its subscriber's name, as the rules of a policy say it.
    pub name: &'a str,
}
