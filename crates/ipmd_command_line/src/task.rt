//! What `ipmd` may be asked to do: a task for each command, with its options.
/// Where the text of a policy comes from.
#[derive(Clone, Copy, Debug)]
pub enum PolicySource<'a> {
    /// The file at this path.
    File(&'a str),
    /// This text, in which each `;` stands for a line end.
    Text(&'a str),
}

/// What `ipmd offline` is to do.
#[derive(Clone, Copy, Debug)]
pub struct OfflineOptions<'a> {
    /// The policy.
    pub policy: PolicySource<'a>,
    /// The name of the subscriber.
    pub subscriber: &'a str,
    /// The Export Time of each written message, in seconds since 1970 (RFC 7011, section 3.1).
    pub now: u32,
    /// How long a written message may be, in octets. One with a single template or record may be longer.
    pub target: u16,
    /// The file that gets the audit lines; where there is none, none are made.
    pub audit: Option<&'a str>,
    /// Whether input and output are hexadecimal text.
    pub hex: bool,
}

/// What `ipmd replay` is to do.
#[derive(Clone, Copy, Debug)]
pub struct ReplayOptions<'a> {
    /// The file with the calls.
    pub calls: &'a str,
    /// The file that gets the journal of what was accepted; where there is none, the journal is dropped.
    pub journal: Option<&'a str>,
}

/// What `ipmd verify` is to do.
#[derive(Clone, Copy, Debug)]
pub struct VerifyOptions<'a> {
    /// The journal's file.
    pub journal: &'a str,
    /// Whether the audit is left out.
    pub quiet: bool,
}

/// What `ipmd explain` is to do.
#[derive(Clone, Copy, Debug)]
pub struct ExplainOptions<'a> {
    /// The journal's file.
    pub journal: &'a str,
    /// The number of the subscription.
    pub sub: u64,
    /// The position of the one message that is explained; where there is none, all are.
    pub position: Option<u64>,
    /// The place in its message of the one record that is explained; where there is none, all are.
    pub index: Option<u32>,
}

/// What a command line asks for.
#[derive(Debug, Drop)]
pub enum Task<'a> {
    /// To filter the input for one subscriber.
    Offline(OfflineOptions<'a>),
    /// To say whether a text is a policy.
    CheckPolicy(PolicySource<'a>),
    /// To make the calls that a file lists.
    Replay(ReplayOptions<'a>),
    /// To serve exporters and collectors, as the settings in the file at this path say.
    Serve(&'a str),
    /// To verify a journal's file.
    Verify(VerifyOptions<'a>),
    /// To explain what a subscription saw, by a journal's file.
    Explain(ExplainOptions<'a>),
    /// To print the help or the version: the text is the parser's.
    Show(clap::Error),
}
