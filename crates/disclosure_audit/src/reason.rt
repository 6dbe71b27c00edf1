//! Why a whole record was withheld.
ghost use Rattle.std.specs.Prelude.{◌≡◌};

/// Why a whole record was withheld.
#[derive(Clone, Copy, Debug, PartialEq, Eq)]
pub enum Reason {
    /// The first matching rule on records withholds it, or none matches.
    Rule,
    /// A scope field would be removed, without which the others say nothing (RFC 7011, section 3.4.2).
    ScopeLost,
    /// No octets would be left of its shortest record, so no template can announce it.
    Empty,
    /// It is to be counted in an aggregate and has no start time.
    NoTime,
    /// It is to be counted in an aggregate and lacks a key element.
    NoKey,
    /// It is to be counted in an interval that was closed.
    Late,
}

impl Reason {
    ghost use Rattle.disclosure_audit.specs.Lines.{reason_word};

    /// The word for it in an audit line.
    pub fn word(self) -> &'static str
        ensures { result.now ≡ reason_word self }
    {
        match self {
            Reason::Rule => "rule",
            Reason::ScopeLost => "scope-lost",
            Reason::Empty => "empty",
            Reason::NoTime => "no-time",
            Reason::NoKey => "no-key",
            Reason::Late => "late",
        }
    }
}
