//! The worked cases. A row of them is the limits, the calls, and what each must answer. Those of aggregates stand in
//! `aggregates`.
use crate::octets::{
    DISCLOSED, EMPTY, FIRST_ALONE, LENGTH_FIFTEEN, LONG_NAME, NAMES, NEXT_RECORD, NEXT_THREE,
    ONE_RECORD, ONE_RECORD_NUMBERED_FIVE, ONE_RECORD_OF_EIGHT, RECORD_ALONE, SECOND_ALONE,
    SHORT_HEADER, SHORT_SET, SHORT_TEMPLATE, TEMPLATE_ALONE, THIRD_RECORD, THREE_RECORDS,
    TWO_DISCLOSED, TWO_RECORDS, VERSION_NINE, WITHDRAWN,
};
use ipfix_message::Fault as DecodeError;
use ipfix_session::{Fault as ReadError, Gap, Skips};
use mediator_core::{Fault, Limits, Receipt};
use policy_text::{Fault as PolicyFault, FaultKind};

/// A call, and what it must answer.
pub(crate) enum Step {
    Open(Result<u64, Fault>),
    Close(u64, Result<(), Fault>),
    /// A session's message of a number, with these octets, is accepted at a position, and brings a count of records and
    /// nothing else. The values stand in this order.
    Accept(u64, u64, &'static [u8], u64, u64),
    /// A session's message of a number.
    Receive(u64, u64, &'static [u8], Result<Receipt, Fault>),
    Edit(&'static str, Result<u64, Fault>),
    Subscribe(&'static str, Result<u64, Fault>),
    Unsubscribe(u64, Result<(), Fault>),
    /// The clock goes on to this time, in milliseconds since 1970.
    Advance(u64, Result<(), Fault>),
    /// A subscription, the most octets that its message is to have, and the message.
    Pull(u64, u16, Result<Option<&'static [u8]>, Fault>),
    /// A subscription is served. Behind it stand how many records wait, how many were handed out, and how many
    /// templates are known.
    Served(u64, u32, u64, u32),
    /// A subscription was cut. Behind it stand how many records wait, how many were handed out, and how many
    /// templates are known.
    WasCut(u64, u32, u64, u32),
    /// No such subscription is live.
    Gone(u64),
    /// How many entries of the audit are taken at most, and the lines of these, which are the oldest.
    Audit(u32, &'static [&'static str]),
}

/// Calls in a row, by the name of the case that they work out.
pub(crate) struct Case {
    pub(crate) name: &'static str,
    pub(crate) limits: Limits,
    /// What comes first, and then the case.
    pub(crate) begin: &'static [Step],
    pub(crate) steps: &'static [Step],
}

pub(crate) const PASS: &str =
    "policy 1\nrule for * in * from * to * pass\nrule for * in * from * to * element * keep\n";

pub(crate) const WITHHOLD: &str =
    "policy 1\nrule for * in * from * to * withhold\nrule for * in * from * to * pass\nrule for * in * from * to * element * keep\n";

/// Domain 8 is withheld from acme, and all else passes.
const NOT_EIGHT: &str =
    "policy 1\nrule for acme in 8 from * to * withhold\nrule for * in * from * to * pass\nrule for * in * from * to * element * keep\n";

pub(crate) const HUNDRED: Limits = Limits {
    queue: 100,
    shapes: 100,
    audit: 100,
    entries: 1000,
    octets: 1_000_000,
};

const ONE_SHAPE: Limits = Limits {
    queue: 100,
    shapes: 1,
    audit: 100,
    entries: 1000,
    octets: 1_000_000,
};

/// At most three records may wait for a subscription.
const THREE_RECORDS_WAIT: Limits = Limits {
    queue: 3,
    shapes: 100,
    audit: 100,
    entries: 1000,
    octets: 1_000_000,
};

const TWO_RECORDS_WAIT: Limits = Limits {
    queue: 2,
    shapes: 100,
    audit: 100,
    entries: 1000,
    octets: 1_000_000,
};

const NO_RECORD_WAITS: Limits = Limits {
    queue: 0,
    shapes: 100,
    audit: 100,
    entries: 1000,
    octets: 1_000_000,
};

/// At most one entry may wait in the audit.
const ONE_ENTRY_WAITS: Limits = Limits {
    queue: 100,
    shapes: 100,
    audit: 1,
    entries: 1000,
    octets: 1_000_000,
};

const TWO_ENTRIES_WAIT: Limits = Limits {
    queue: 100,
    shapes: 100,
    audit: 2,
    entries: 1000,
    octets: 1_000_000,
};

const NO_SKIPS: Skips = Skips {
    unknown: 0,
    reserved: 0,
    refused: 0,
};

const ONE_UNKNOWN: Skips = Skips {
    unknown: 1,
    reserved: 0,
    refused: 0,
};

/// What a message answers that brings nothing, as the first entry.
const NOTHING: Receipt = Receipt {
    position: 0,
    records: 0,
    cut: 0,
    skips: NO_SKIPS,
    gap: None,
};

const BAD_LENGTH: Fault = Fault::Malformed(ReadError::Malformed(DecodeError::BadLength));

const BAD_VERSION: Fault = Fault::Malformed(ReadError::Malformed(DecodeError::BadVersion));

const BAD_SET_LENGTH: Fault = Fault::Malformed(ReadError::Malformed(DecodeError::BadSetLength));

const NO_WHOLE_HEADER: Fault = Fault::Malformed(ReadError::Malformed(DecodeError::ShortHeader));

const TEMPLATE_OVERRUN: Fault = Fault::Malformed(ReadError::Malformed(
    DecodeError::TemplateOverrun,
));

const RECORD_OVERRUN: Fault = Fault::Malformed(ReadError::RecordOverrun);

const NO_HEADER: Fault = Fault::Policy(PolicyFault {
    line: 1,
    kind: FaultKind::NoHeader,
});

/// A policy that passes everything, acme, and a session: entries 0 to 2.
const BEGIN: &[Step] = &[
    Step::Edit(PASS, Ok(1)),
    Step::Subscribe("acme", Ok(1)),
    Step::Open(Ok(1)),
];

/// Acme and a session, without a policy: entries 0 and 1.
const BEGIN_UNEDITED: &[Step] = &[Step::Subscribe("acme", Ok(1)), Step::Open(Ok(1))];

/// A policy that has no rules, acme, and a session: entries 0 to 2.
const BEGIN_WITHOUT_RULES: &[Step] = &[
    Step::Edit("policy 1", Ok(1)),
    Step::Subscribe("acme", Ok(1)),
    Step::Open(Ok(1)),
];

/// A policy that passes everything, acme, beta, and a session: entries 0 to 3.
const BEGIN_TWO: &[Step] = &[
    Step::Edit(PASS, Ok(1)),
    Step::Subscribe("acme", Ok(1)),
    Step::Subscribe("beta", Ok(2)),
    Step::Open(Ok(1)),
];

/// Three records come where three may wait: acme, for which one waits, is cut before them, and beta gets them.
const ONE_IS_CUT: &[Step] = &[
    Step::Accept(1, 0, ONE_RECORD, 4, 1),
    Step::Pull(2, 1400, Ok(Some(DISCLOSED))),
    Step::Receive(
        1,
        1,
        THREE_RECORDS,
        Ok(Receipt {
            position: 6,
            records: 3,
            cut: 1,
            ..NOTHING
        }),
    ),
    Step::WasCut(1, 1, 0, 1),
    Step::Served(2, 3, 1, 1),
    Step::Pull(1, 1400, Ok(Some(DISCLOSED))),
    Step::Pull(1, 1400, Ok(None)),
    Step::Pull(2, 1400, Ok(Some(NEXT_THREE))),
    Step::Audit(10, &["5 0 1 cut\n"]),
    Step::WasCut(1, 0, 1, 1),
    Step::Served(2, 0, 4, 1),
];

pub(crate) static CASES: &[Case] = &[
    Case {
        name: "one_record",
        limits: HUNDRED,
        begin: BEGIN,
        steps: &[
            Step::Served(1, 0, 0, 0),
            Step::Accept(1, 0, ONE_RECORD, 3, 1),
            Step::Served(1, 1, 0, 1),
            Step::Pull(1, 1400, Ok(Some(DISCLOSED))),
            Step::Pull(1, 1400, Ok(None)),
            Step::Served(1, 0, 1, 1),
            Step::Audit(10, &[]),
        ],
    },
    Case {
        name: "empty_message",
        limits: HUNDRED,
        begin: BEGIN,
        steps: &[
            Step::Accept(1, 0, EMPTY, 3, 0),
            Step::Pull(1, 1400, Ok(None)),
        ],
    },
    // None of them is counted, and the first good message is at the position that the first bad one would have had.
    Case {
        name: "malformed_messages",
        limits: HUNDRED,
        begin: BEGIN,
        steps: &[
            Step::Receive(1, 0, LENGTH_FIFTEEN, Err(BAD_LENGTH)),
            Step::Receive(1, 0, VERSION_NINE, Err(BAD_VERSION)),
            Step::Receive(1, 0, SHORT_SET, Err(BAD_SET_LENGTH)),
            Step::Receive(1, 0, SHORT_HEADER, Err(NO_WHOLE_HEADER)),
            Step::Receive(1, 0, SHORT_TEMPLATE, Err(TEMPLATE_OVERRUN)),
            Step::Served(1, 0, 0, 0),
            Step::Accept(1, 0, ONE_RECORD, 3, 1),
            Step::Pull(1, 1400, Ok(Some(DISCLOSED))),
        ],
    },
    // The first record of a refused message isn't accepted either.
    Case {
        name: "record_overrun",
        limits: HUNDRED,
        begin: BEGIN,
        steps: &[
            Step::Accept(1, 0, NAMES, 3, 0),
            Step::Receive(1, 1, LONG_NAME, Err(RECORD_OVERRUN)),
            Step::Served(1, 0, 0, 0),
            Step::Accept(1, 1, EMPTY, 4, 0),
        ],
    },
    // What was accepted is judged by the policy of its time, and not by that of the pull.
    Case {
        name: "edit_between_messages",
        limits: HUNDRED,
        begin: BEGIN,
        steps: &[
            Step::Accept(1, 0, ONE_RECORD, 3, 1),
            Step::Edit(WITHHOLD, Ok(2)),
            Step::Accept(1, 1, NEXT_RECORD, 5, 1),
            Step::Pull(1, 1400, Ok(Some(DISCLOSED))),
            Step::Pull(1, 1400, Ok(None)),
            Step::Audit(10, &["5 0 1 withheld 1 rule\n"]),
        ],
    },
    Case {
        name: "full_queue",
        limits: THREE_RECORDS_WAIT,
        begin: BEGIN_TWO,
        steps: ONE_IS_CUT,
    },
    // With an entry less than the cut and the message take, nothing happens: to beta neither.
    Case {
        name: "full_queue: room for the cut alone",
        limits: Limits {
            entries: 6,
            ..THREE_RECORDS_WAIT
        },
        begin: BEGIN_TWO,
        steps: &[
            Step::Accept(1, 0, ONE_RECORD, 4, 1),
            Step::Pull(2, 1400, Ok(Some(DISCLOSED))),
            Step::Receive(1, 1, THREE_RECORDS, Err(Fault::JournalFull)),
            Step::Served(1, 1, 0, 1),
            Step::Served(2, 0, 1, 1),
            Step::Pull(2, 1400, Ok(None)),
            Step::Audit(10, &[]),
        ],
    },
    Case {
        name: "full_queue: room for the cut and the message",
        limits: Limits {
            entries: 7,
            ..THREE_RECORDS_WAIT
        },
        begin: BEGIN_TWO,
        steps: ONE_IS_CUT,
    },
    // As many records as may wait are no reason for a cut, and one more is.
    Case {
        name: "full_queue: at its limit",
        limits: TWO_RECORDS_WAIT,
        begin: BEGIN,
        steps: &[
            Step::Accept(1, 0, TWO_RECORDS, 3, 2),
            Step::Served(1, 2, 0, 1),
            Step::Receive(
                1,
                1,
                THIRD_RECORD,
                Ok(Receipt {
                    position: 5,
                    records: 1,
                    cut: 1,
                    ..NOTHING
                }),
            ),
            Step::WasCut(1, 2, 0, 1),
            Step::Pull(1, 1400, Ok(Some(TWO_DISCLOSED))),
            Step::Pull(1, 1400, Ok(None)),
            Step::Audit(10, &["4 0 1 cut\n"]),
        ],
    },
    Case {
        name: "small_target",
        limits: HUNDRED,
        begin: BEGIN,
        steps: &[
            Step::Accept(1, 0, TWO_RECORDS, 3, 2),
            Step::Pull(1, 16, Ok(Some(TEMPLATE_ALONE))),
            Step::Pull(1, 16, Ok(Some(FIRST_ALONE))),
            Step::Pull(1, 16, Ok(Some(SECOND_ALONE))),
            Step::Pull(1, 16, Ok(None)),
        ],
    },
    // What is refused leaves no trace: the message is at the position that the first of them would have had. The clock may
    // stay, and doesn't go back.
    Case {
        name: "named_refusals",
        limits: HUNDRED,
        begin: BEGIN,
        steps: &[
            Step::Advance(1000, Ok(())),
            Step::Advance(999, Err(Fault::ClockBack { last: 1000 })),
            Step::Advance(0, Err(Fault::ClockBack { last: 1000 })),
            Step::Advance(1000, Ok(())),
            Step::Subscribe("acme", Err(Fault::AlreadySubscribed { sub: 1 })),
            Step::Subscribe("Acme", Err(Fault::BadName)),
            Step::Receive(1, 1, ONE_RECORD, Err(Fault::OutOfTurn { expected: 0 })),
            Step::Receive(9, 0, ONE_RECORD, Err(Fault::UnknownSession)),
            Step::Close(9, Err(Fault::UnknownSession)),
            Step::Pull(9, 1400, Err(Fault::UnknownSub)),
            Step::Unsubscribe(9, Err(Fault::UnknownSub)),
            Step::Gone(9),
            Step::Edit("", Err(NO_HEADER)),
            Step::Accept(1, 0, ONE_RECORD, 5, 1),
            Step::Pull(1, 1400, Ok(Some(DISCLOSED))),
        ],
    },
    // The first four entries count for 188 octets. With no room left, a call's own refusals still come first.
    Case {
        name: "full_limits: entries",
        limits: Limits {
            entries: 4,
            ..HUNDRED
        },
        begin: BEGIN,
        steps: &[
            Step::Accept(1, 0, ONE_RECORD, 3, 1),
            Step::Open(Err(Fault::JournalFull)),
            Step::Close(1, Err(Fault::JournalFull)),
            Step::Close(9, Err(Fault::UnknownSession)),
            Step::Receive(1, 1, NEXT_RECORD, Err(Fault::JournalFull)),
            Step::Receive(1, 1, SHORT_SET, Err(BAD_SET_LENGTH)),
            Step::Edit(PASS, Err(Fault::JournalFull)),
            Step::Edit("", Err(NO_HEADER)),
            Step::Subscribe("beta", Err(Fault::JournalFull)),
            Step::Subscribe("Beta", Err(Fault::BadName)),
            Step::Unsubscribe(1, Err(Fault::JournalFull)),
            Step::Unsubscribe(9, Err(Fault::UnknownSub)),
            Step::Advance(1000, Err(Fault::JournalFull)),
            Step::Pull(1, 1400, Ok(Some(DISCLOSED))),
        ],
    },
    Case {
        name: "full_limits: as many octets",
        limits: Limits {
            octets: 188,
            ..HUNDRED
        },
        begin: BEGIN,
        steps: &[
            Step::Accept(1, 0, ONE_RECORD, 3, 1),
            Step::Open(Err(Fault::JournalFull)),
            Step::Pull(1, 1400, Ok(Some(DISCLOSED))),
        ],
    },
    Case {
        name: "full_limits: an octet less",
        limits: Limits {
            octets: 187,
            ..HUNDRED
        },
        begin: BEGIN,
        steps: &[
            Step::Receive(1, 0, ONE_RECORD, Err(Fault::JournalFull)),
            Step::Open(Ok(2)),
            Step::Pull(1, 1400, Ok(None)),
        ],
    },
    // A cut wants an entry too.
    Case {
        name: "full_limits: no room for a cut",
        limits: Limits {
            entries: 4,
            ..NO_RECORD_WAITS
        },
        begin: BEGIN,
        steps: &[
            Step::Receive(1, 0, ONE_RECORD, Err(Fault::JournalFull)),
            Step::Served(1, 0, 0, 0),
            Step::Accept(1, 0, EMPTY, 3, 0),
        ],
    },
    Case {
        name: "full_limits: room for a cut",
        limits: Limits {
            entries: 5,
            ..NO_RECORD_WAITS
        },
        begin: BEGIN,
        steps: &[
            Step::Receive(
                1,
                0,
                ONE_RECORD,
                Ok(Receipt {
                    position: 4,
                    records: 1,
                    cut: 1,
                    ..NOTHING
                }),
            ),
            Step::WasCut(1, 0, 0, 0),
            Step::Audit(10, &["3 0 1 cut\n"]),
        ],
    },
    Case {
        name: "full_limits: the audit",
        limits: ONE_ENTRY_WAITS,
        begin: BEGIN_UNEDITED,
        steps: &[
            Step::Receive(
                1,
                0,
                TWO_RECORDS,
                Err(Fault::AuditFull { need: 2, room: 1 }),
            ),
            Step::Audit(10, &[]),
            Step::Accept(1, 0, ONE_RECORD, 2, 1),
            Step::Receive(
                1,
                1,
                NEXT_RECORD,
                Err(Fault::AuditFull { need: 1, room: 0 }),
            ),
            Step::Audit(10, &["2 0 1 withheld 0 rule\n"]),
            Step::Accept(1, 1, NEXT_RECORD, 3, 1),
        ],
    },
    // Without room in the journal, a full audit isn't asked about; and a drain that hands out nothing makes no room.
    Case {
        name: "full_limits: the journal before the audit",
        limits: Limits {
            entries: 3,
            ..ONE_ENTRY_WAITS
        },
        begin: BEGIN_WITHOUT_RULES,
        steps: &[
            Step::Receive(1, 0, TWO_RECORDS, Err(Fault::JournalFull)),
            Step::Audit(10, &[]),
            Step::Receive(1, 0, TWO_RECORDS, Err(Fault::JournalFull)),
        ],
    },
    Case {
        name: "full_limits: the audit, behind a drain of nothing too",
        limits: Limits {
            entries: 4,
            ..ONE_ENTRY_WAITS
        },
        begin: BEGIN_WITHOUT_RULES,
        steps: &[
            Step::Receive(
                1,
                0,
                TWO_RECORDS,
                Err(Fault::AuditFull { need: 2, room: 1 }),
            ),
            Step::Audit(10, &[]),
            Step::Receive(
                1,
                0,
                TWO_RECORDS,
                Err(Fault::AuditFull { need: 2, room: 1 }),
            ),
            Step::Accept(1, 0, ONE_RECORD, 3, 1),
            Step::Audit(10, &["3 0 1 withheld 0 rule\n"]),
        ],
    },
    Case {
        name: "full_limits: the oldest entries first",
        limits: TWO_ENTRIES_WAIT,
        begin: BEGIN_UNEDITED,
        steps: &[
            Step::Accept(1, 0, TWO_RECORDS, 2, 2),
            Step::Audit(1, &["2 0 1 withheld 0 rule\n"]),
            Step::Audit(1, &["2 1 1 withheld 0 rule\n"]),
            Step::Audit(1, &[]),
            Step::Pull(1, 1400, Ok(None)),
        ],
    },
    Case {
        name: "sequence_gap",
        limits: HUNDRED,
        begin: BEGIN,
        steps: &[
            Step::Accept(1, 0, ONE_RECORD, 3, 1),
            Step::Receive(
                1,
                1,
                ONE_RECORD_NUMBERED_FIVE,
                Ok(Receipt {
                    position: 4,
                    records: 1,
                    gap: Some(Gap {
                        expected: 1,
                        got: 5,
                    }),
                    ..NOTHING
                }),
            ),
            Step::Pull(1, 1400, Ok(Some(TWO_DISCLOSED))),
        ],
    },
    Case {
        name: "closed_session",
        limits: HUNDRED,
        begin: BEGIN,
        steps: &[
            Step::Accept(1, 0, ONE_RECORD, 3, 1),
            Step::Close(1, Ok(())),
            Step::Close(1, Err(Fault::UnknownSession)),
            Step::Receive(1, 1, NEXT_RECORD, Err(Fault::UnknownSession)),
            Step::Pull(1, 1400, Ok(Some(DISCLOSED))),
        ],
    },
    // A name stays taken until its subscription ends, and its number never comes again.
    Case {
        name: "shapes_limit",
        limits: ONE_SHAPE,
        begin: BEGIN,
        steps: &[
            Step::Receive(
                1,
                0,
                WITHDRAWN,
                Ok(Receipt {
                    position: 4,
                    records: 2,
                    cut: 1,
                    skips: ONE_UNKNOWN,
                    ..NOTHING
                }),
            ),
            Step::Pull(1, 1400, Ok(None)),
            Step::Audit(10, &["3 0 1 cut\n"]),
            Step::Subscribe("acme", Err(Fault::AlreadySubscribed { sub: 1 })),
            Step::Unsubscribe(1, Ok(())),
            Step::Gone(1),
            Step::Subscribe("acme", Ok(2)),
            Step::Served(2, 0, 0, 0),
        ],
    },
    // What is withheld leaves no trace in what acme gets, neither a number nor a template.
    Case {
        name: "isolation: acme alone",
        limits: HUNDRED,
        begin: &[
            Step::Edit(NOT_EIGHT, Ok(1)),
            Step::Subscribe("acme", Ok(1)),
            Step::Open(Ok(1)),
        ],
        steps: &[
            Step::Accept(1, 0, ONE_RECORD, 3, 1),
            Step::Pull(1, 1400, Ok(Some(DISCLOSED))),
        ],
    },
    Case {
        name: "isolation: beside beta",
        limits: HUNDRED,
        begin: &[
            Step::Edit(NOT_EIGHT, Ok(1)),
            Step::Subscribe("acme", Ok(1)),
            Step::Subscribe("beta", Ok(2)),
            Step::Open(Ok(1)),
        ],
        steps: &[
            Step::Accept(1, 0, ONE_RECORD_OF_EIGHT, 4, 1),
            Step::Accept(1, 1, ONE_RECORD, 5, 1),
            Step::Pull(1, 1400, Ok(Some(DISCLOSED))),
            Step::Pull(2, 1400, Ok(Some(TWO_DISCLOSED))),
            Step::Audit(10, &["4 0 1 withheld 1 rule\n"]),
        ],
    },
    // A session's templates end with it.
    Case {
        name: "session_end",
        limits: HUNDRED,
        begin: BEGIN,
        steps: &[
            Step::Accept(1, 0, ONE_RECORD, 3, 1),
            Step::Close(1, Ok(())),
            Step::Open(Ok(2)),
            Step::Receive(
                2,
                0,
                RECORD_ALONE,
                Ok(Receipt {
                    position: 6,
                    skips: ONE_UNKNOWN,
                    ..NOTHING
                }),
            ),
        ],
    },
    // And they are its own.
    Case {
        name: "two_sessions",
        limits: HUNDRED,
        begin: BEGIN,
        steps: &[
            Step::Open(Ok(2)),
            Step::Accept(1, 0, ONE_RECORD, 4, 1),
            Step::Receive(
                2,
                0,
                RECORD_ALONE,
                Ok(Receipt {
                    position: 5,
                    skips: ONE_UNKNOWN,
                    ..NOTHING
                }),
            ),
            Step::Accept(1, 1, NEXT_RECORD, 6, 1),
            Step::Pull(1, 1400, Ok(Some(TWO_DISCLOSED))),
        ],
    },
];
