//! The versions of the policy language.
ghost use Rattle.std.specs.Prelude.{◌≡◌};
ghost use Rattle.policy_text.specs.Policies.{has_degrade};

/// A version of the policy language. The header of a text names it.
#[derive(Clone, Copy, Debug, PartialEq, Eq)]
pub enum Version {
    /// `policy 1`.
    One,
    /// `policy 2`: all lines of `policy 1`, and rules that degrade times.
    Two,
}

impl Version {
    /// Whether rules may degrade times.
    pub(crate) fn has_degrade(self) -> bool
        ensures { result ≡ has_degrade self }
    {
        match self {
            Version::One => false,
            Version::Two => true,
        }
    }
}
