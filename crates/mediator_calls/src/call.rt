//! The calls of a mediator as values, and what they are answered.

use bytes::Bytes;
use disclosure_audit::AuditEntry;
use mediator_state::{Fault, Receipt, Status};
use mediator_tables::{SessionId, SubId};

/// A call of a [`Mediator`](crate::Mediator), with its arguments, which have the meaning of its method of that name.
#[derive(Debug, Drop)]
pub enum Call {
    /// A session of an exporter is opened.
    Open,
    /// The session with the number `session` is closed.
    Close {
        session: SessionId,
    },
    /// A message of a session is handed in. `number` is how many messages the session had before.
    Receive {
        session: SessionId,
        number: u64,
        message: Bytes,
    },
    /// The policy that `text` spells is put in force.
    Edit {
        text: String,
    },
    /// A subscription begins, for a subscriber of this `name`.
    Subscribe {
        name: String,
    },
    /// A subscription ends.
    Unsubscribe {
        sub: SubId,
    },
    /// The clock is advanced to `t`, in milliseconds since 1970.
    Advance {
        t: u64,
    },
    /// The next message of a subscription is built, with the Export Time `now`, in seconds since 1970, and of about
    /// `target` octets at most.
    Pull {
        sub: SubId,
        now: u32,
        target: u16,
    },
    /// It is asked how a subscription stands.
    Status {
        sub: SubId,
    },
    /// The oldest `most` of the audit entries that wait are handed out.
    DrainAudit {
        most: u32,
    },
}

/// What a call was answered.
#[derive(Debug, Drop)]
pub enum Reply {
    /// A session was opened. This is its number.
    Opened(SessionId),
    /// The session was closed.
    Closed,
    /// The message was accepted, and this is what became of it.
    Received(Receipt),
    /// The policy was put in force. This is its revision: the number of edits, with it.
    Edited(u64),
    /// The subscription began. This is its number.
    Subscribed(SubId),
    /// The subscription ended.
    Unsubscribed,
    /// The clock was advanced.
    Advanced,
    /// The subscription's next message, or `None` where nothing waited.
    Pulled(Option<Bytes>),
    /// How the subscription stands.
    Stands(Status),
    /// The audit entries that were handed out, in their order.
    Drained(Vec<AuditEntry>),
    /// The call was refused for this reason, and changed nothing.
    Refused(Fault),
}
