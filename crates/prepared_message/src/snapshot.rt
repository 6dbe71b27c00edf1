//! The templates of a session as they stood, with the terms on which records were shared.
ghost use Rattle.std.specs.Prelude.{◌≡◌, ℕ, List, IfOk};
ghost use Rattle.ipfix_session.specs.Standing.{StandsFor, Knows};

use ipfix_session::{Session, Templates};
use mediator_shares::Terms;
use std::alloc::AllocError;
use std::marker::Model;
use std::sync::Arc;

/// The templates of a session as they stood when this was made, and the terms on which records were shared then, if it
/// was given some. Messages are prepared against it while the session and the policy go their own way. Contracts see
/// the list of Observation Domains with the templates of each, and say by `Knows` after which messages they are in
/// force. The terms change no answer, since what was judged by them is taken only where they still hold.
pub struct Snapshot {
    pub(crate) templates: Templates,
    pub(crate) terms: Option<Arc<Terms>>,
}

impl Drop for Snapshot {
    // Written out: a derived one is proved anew in each crate that drops such a value.
    fn drop(self) {
        let Snapshot {
            templates: _,
            terms: _,
        } = self;
    }
}

impl Model for Snapshot {
    ghost use Rattle.std.specs.Prelude.{ℕ, List};
    ghost use Rattle.ipfix_template.specs.declared.template.Template.{Template};

    ghost Value = { List (ℕ × List (ℕ × Template)) };

    ghost view = { λ s. s.templates };
}

impl Snapshot {
    /// The templates of `session` as they stand now, without terms. Where the session shares them ([`Session::share`]),
    /// this costs one owner more, however many they are, and else a copy.
    ///
    /// # Errors
    /// Want of memory.
    pub fn of(session: &Session) -> Result<Snapshot, AllocError>
        ensures same { IfOk result (λ s. s ≡ session.now.standing.templates) }
        // After the messages that the session stands for these templates are in force.
        ensures knows { (older : List (List ℕ)) → StandsFor session.now older
            → IfOk result (λ s. Knows s older) }
    {
        Ok(Snapshot {
            templates: session.templates()?,
            terms: None,
        })
    }

    /// The snapshot with `terms`, on which the records of messages are judged too. It takes no memory.
    pub fn with_terms(self, terms: Arc<Terms>) -> Snapshot
        ensures { result ≡ self }
    {
        let Snapshot {
            templates,
            terms: _,
        } = self;
        Snapshot {
            templates,
            terms: Some(terms),
        }
    }
}
