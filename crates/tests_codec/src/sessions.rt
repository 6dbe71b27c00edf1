//! Worked cases, message by message: what each brings, and which templates are in force after it.
use bytes::Bytes;
use ipfix_message::Fault as DecodeError;
use ipfix_session::{Fault as ReadError, Gap, Read, Session, Skips};
use ipfix_template::Record;
use std::alloc::{AllocError, Global};
use std::process::Abort;
use std::test::Fail;

/// A message of a case.
struct Step {
    message: &'static [u8],
    answer: Result<Brought, ReadError>,
    /// The scope counts of the templates in force after it: in domain 7 of the IDs from 256 to 259, and in domain
    /// 8 of 256.
    known: [Option<u16>; 5],
}

/// What a message brings; its records are those with these values.
struct Brought {
    sequence: u32,
    records: &'static [&'static [&'static [u8]]],
    skips: Skips,
    gap: Option<Gap>,
}

/// Messages of a new session, by the name of the case that they work out.
struct Case {
    name: &'static str,
    steps: &'static [Step],
}

const NO_SKIPS: Skips = Skips {
    unknown: 0,
    reserved: 0,
    refused: 0,
};

const ONE_UNKNOWN: Skips = Skips {
    unknown: 1,
    reserved: 0,
    refused: 0,
};

const NO_TEMPLATE: [Option<u16>; 5] = [None, None, None, None, None];

const ONE_TEMPLATE: [Option<u16>; 5] = [Some(0), None, None, None, None];

/// A template of sourceIPv4Address, sourceTransportPort and octetDeltaCount, and one record of it.
const ONE_RECORD: &[u8] = b"\x00\x0a\x00\x32\x65\x53\xf1\x00\x00\x00\x00\x00\x00\x00\x00\x07\
\x00\x02\x00\x14\x01\x00\x00\x03\x00\x08\x00\x04\x00\x07\x00\x02\x00\x01\x00\x04\
\x01\x00\x00\x0e\xc0\x00\x02\x4d\x01\xbb\x00\x00\x05\xdc";

static CASES: [Case; 14] = [
    Case {
        name: "one_record",
        steps: &[Step {
            message: ONE_RECORD,
            answer: Ok(Brought {
                sequence: 0,
                records: &[&[b"\xc0\x00\x02\x4d", b"\x01\xbb", b"\x00\x00\x05\xdc"]],
                skips: NO_SKIPS,
                gap: None,
            }),
            known: ONE_TEMPLATE,
        }],
    },
    Case {
        name: "empty_message",
        steps: &[Step {
            message: b"\x00\x0a\x00\x10\x65\x53\xf1\x00\x00\x00\x00\x00\x00\x00\x00\x07",
            answer: Ok(Brought {
                sequence: 0,
                records: &[],
                skips: NO_SKIPS,
                gap: None,
            }),
            known: NO_TEMPLATE,
        }],
    },
    Case {
        name: "malformed_messages",
        steps: &[
            Step {
                message: ONE_RECORD,
                answer: Ok(Brought {
                    sequence: 0,
                    records: &[&[b"\xc0\x00\x02\x4d", b"\x01\xbb", b"\x00\x00\x05\xdc"]],
                    skips: NO_SKIPS,
                    gap: None,
                }),
                known: ONE_TEMPLATE,
            },
            Step {
                message: b"\x00\x0a\x00\x0f\x65\x53\xf1\x00\x00\x00\x00\x01\x00\x00\x00\x07",
                answer: Err(ReadError::Malformed(DecodeError::BadLength)),
                known: ONE_TEMPLATE,
            },
            Step {
                message: b"\x00\x09\x00\x10\x65\x53\xf1\x00\x00\x00\x00\x01\x00\x00\x00\x07",
                answer: Err(ReadError::Malformed(DecodeError::BadVersion)),
                known: ONE_TEMPLATE,
            },
            // A set of 3 octets.
            Step {
                message: b"\x00\x0a\x00\x14\x65\x53\xf1\x00\x00\x00\x00\x01\x00\x00\x00\x07\x01\x00\x00\x03",
                answer: Err(ReadError::Malformed(DecodeError::BadSetLength)),
                known: ONE_TEMPLATE,
            },
            Step {
                message: b"\x00\x0a\x00\x32\x65\x53\xf1\x00\x00\x00\x00\x00\x00\x00\x00",
                answer: Err(ReadError::Malformed(DecodeError::ShortHeader)),
                known: ONE_TEMPLATE,
            },
            // A template 256 of one field, which is not there.
            Step {
                message: b"\x00\x0a\x00\x18\x65\x53\xf1\x00\x00\x00\x00\x01\x00\x00\x00\x07\x00\x02\x00\x08\x01\x00\x00\x01",
                answer: Err(ReadError::Malformed(DecodeError::TemplateOverrun)),
                known: ONE_TEMPLATE,
            },
            // The same of 65,535 fields.
            Step {
                message: b"\x00\x0a\x00\x18\x65\x53\xf1\x00\x00\x00\x00\x01\x00\x00\x00\x07\x00\x02\x00\x08\x01\x00\xff\xff",
                answer: Err(ReadError::Malformed(DecodeError::TemplateOverrun)),
                known: ONE_TEMPLATE,
            },
            Step {
                message: b"\x00\x0a\x00\x32\x65\x53\xf1\x00\x00\x00\x00\x00\x00\x00\x00\x07",
                answer: Err(ReadError::Malformed(DecodeError::BadLength)),
                known: ONE_TEMPLATE,
            },
            // Nor did the number change that the next message is to have.
            Step {
                message: b"\x00\x0a\x00\x10\x65\x53\xf1\x00\x00\x00\x00\x01\x00\x00\x00\x07",
                answer: Ok(Brought {
                    sequence: 1,
                    records: &[],
                    skips: NO_SKIPS,
                    gap: None,
                }),
                known: ONE_TEMPLATE,
            },
        ],
    },
    Case {
        name: "value_lengths",
        steps: &[Step {
            message: b"\x00\x0a\x02\x28\x65\x53\xf1\x00\x00\x00\x00\x00\x00\x00\x00\x07\
\x00\x02\x00\x0c\x01\x00\x00\x01\x00\x52\xff\xff\x01\x00\x02\x0c\x00\xfe\
aaaaaaaaaaaaaaaaaaaaaaaaaaaaaaaaaaaaaaaaaaaaaaaaaaaaaaaaaaaaaaaa\
aaaaaaaaaaaaaaaaaaaaaaaaaaaaaaaaaaaaaaaaaaaaaaaaaaaaaaaaaaaaaaaa\
aaaaaaaaaaaaaaaaaaaaaaaaaaaaaaaaaaaaaaaaaaaaaaaaaaaaaaaaaaaaaaaa\
aaaaaaaaaaaaaaaaaaaaaaaaaaaaaaaaaaaaaaaaaaaaaaaaaaaaaaaaaaaaaa\
\xff\x00\xff\
aaaaaaaaaaaaaaaaaaaaaaaaaaaaaaaaaaaaaaaaaaaaaaaaaaaaaaaaaaaaaaaa\
aaaaaaaaaaaaaaaaaaaaaaaaaaaaaaaaaaaaaaaaaaaaaaaaaaaaaaaaaaaaaaaa\
aaaaaaaaaaaaaaaaaaaaaaaaaaaaaaaaaaaaaaaaaaaaaaaaaaaaaaaaaaaaaaaa\
aaaaaaaaaaaaaaaaaaaaaaaaaaaaaaaaaaaaaaaaaaaaaaaaaaaaaaaaaaaaaaa\
\xff\x00\x03abc",
            answer: Ok(Brought {
                sequence: 0,
                records: &[
                    &[b""],
                    &[
                        b"aaaaaaaaaaaaaaaaaaaaaaaaaaaaaaaaaaaaaaaaaaaaaaaaaaaaaaaaaaaaaaaa\
aaaaaaaaaaaaaaaaaaaaaaaaaaaaaaaaaaaaaaaaaaaaaaaaaaaaaaaaaaaaaaaa\
aaaaaaaaaaaaaaaaaaaaaaaaaaaaaaaaaaaaaaaaaaaaaaaaaaaaaaaaaaaaaaaa\
aaaaaaaaaaaaaaaaaaaaaaaaaaaaaaaaaaaaaaaaaaaaaaaaaaaaaaaaaaaaaa",
                    ],
                    &[
                        b"aaaaaaaaaaaaaaaaaaaaaaaaaaaaaaaaaaaaaaaaaaaaaaaaaaaaaaaaaaaaaaaa\
aaaaaaaaaaaaaaaaaaaaaaaaaaaaaaaaaaaaaaaaaaaaaaaaaaaaaaaaaaaaaaaa\
aaaaaaaaaaaaaaaaaaaaaaaaaaaaaaaaaaaaaaaaaaaaaaaaaaaaaaaaaaaaaaaa\
aaaaaaaaaaaaaaaaaaaaaaaaaaaaaaaaaaaaaaaaaaaaaaaaaaaaaaaaaaaaaaa",
                    ],
                    &[b"abc"],
                ],
                skips: NO_SKIPS,
                gap: None,
            }),
            known: ONE_TEMPLATE,
        }],
    },
    Case {
        name: "record_overrun",
        steps: &[ // A value of 65,377 octets that is not there. The definition stands in the refused message itself.
            Step {
                message: b"\x00\x0a\x00\x24\x65\x53\xf1\x00\x00\x00\x00\x00\x00\x00\x00\x07\
\x00\x02\x00\x0c\x01\x00\x00\x01\x00\x52\xff\xff\x01\x00\x00\x08\xff\xff\xff\x61",
                answer: Err(ReadError::RecordOverrun),
                known: NO_TEMPLATE,
            },
            Step {
                message: b"\x00\x0a\x00\x25\x65\x53\xf1\x00\x00\x00\x00\x00\x00\x00\x00\x07\
\x00\x02\x00\x0c\x01\x00\x00\x01\x00\x52\xff\xff\x01\x00\x00\x09\x01\x61\x03\x62\x63",
                answer: Err(ReadError::RecordOverrun),
                known: NO_TEMPLATE,
            },
            Step {
                message: b"\x00\x0a\x00\x1c\x65\x53\xf1\x00\x00\x00\x00\x00\x00\x00\x00\x07\
\x00\x02\x00\x0c\x01\x00\x00\x01\x00\x52\xff\xff",
                answer: Ok(Brought {
                    sequence: 0,
                    records: &[],
                    skips: NO_SKIPS,
                    gap: None,
                }),
                known: ONE_TEMPLATE,
            },
            Step {
                message: b"\x00\x0a\x00\x19\x65\x53\xf1\x00\x00\x00\x00\x00\x00\x00\x00\x07\
\x01\x00\x00\x09\x01\x61\x03\x62\x63",
                answer: Err(ReadError::RecordOverrun),
                known: ONE_TEMPLATE,
            },
        ],
    },
    Case {
        name: "withdraw_and_redefine",
        steps: &[Step {
            message: b"\x00\x0a\x00\x3f\x65\x53\xf1\x00\x00\x00\x00\x00\x00\x00\x00\x07\
\x00\x02\x00\x0c\x01\x00\x00\x01\x00\x04\x00\x01\x01\x00\x00\x05\x06\
\x00\x02\x00\x08\x01\x00\x00\x00\x01\x00\x00\x05\x11\
\x00\x02\x00\x0c\x01\x00\x00\x01\x00\x3c\x00\x01\x01\x00\x00\x05\x04",
            answer: Ok(Brought {
                sequence: 0,
                records: &[&[b"\x06"], &[b"\x04"]],
                skips: ONE_UNKNOWN,
                gap: None,
            }),
            known: ONE_TEMPLATE,
        }],
    },
    Case {
        name: "sequence_gap",
        steps: &[
            Step {
                message: ONE_RECORD,
                answer: Ok(Brought {
                    sequence: 0,
                    records: &[&[b"\xc0\x00\x02\x4d", b"\x01\xbb", b"\x00\x00\x05\xdc"]],
                    skips: NO_SKIPS,
                    gap: None,
                }),
                known: ONE_TEMPLATE,
            },
            Step {
                message: b"\x00\x0a\x00\x32\x65\x53\xf1\x00\x00\x00\x00\x05\x00\x00\x00\x07\
\x00\x02\x00\x14\x01\x00\x00\x03\x00\x08\x00\x04\x00\x07\x00\x02\x00\x01\x00\x04\
\x01\x00\x00\x0e\xc0\x00\x02\x4d\x01\xbb\x00\x00\x05\xdc",
                answer: Ok(Brought {
                    sequence: 5,
                    records: &[&[b"\xc0\x00\x02\x4d", b"\x01\xbb", b"\x00\x00\x05\xdc"]],
                    skips: NO_SKIPS,
                    gap: Some(Gap {
                        expected: 1,
                        got: 5,
                    }),
                }),
                known: ONE_TEMPLATE,
            },
        ],
    },
    Case {
        name: "sequence_base",
        steps: &[
            Step {
                message: b"\x00\x0a\x00\x15\x65\x53\xf1\x00\x00\x00\x00\x00\x00\x00\x00\x07\
\x01\x2c\x00\x05\x01",
                answer: Ok(Brought {
                    sequence: 0,
                    records: &[],
                    skips: ONE_UNKNOWN,
                    gap: None,
                }),
                known: NO_TEMPLATE,
            },
            Step {
                message: b"\x00\x0a\x00\x10\x65\x53\xf1\x00\x00\x00\x00\x09\x00\x00\x00\x07",
                answer: Ok(Brought {
                    sequence: 9,
                    records: &[],
                    skips: NO_SKIPS,
                    gap: None,
                }),
                known: NO_TEMPLATE,
            },
            Step {
                message: b"\x00\x0a\x00\x10\x65\x53\xf1\x00\x00\x00\x00\x05\x00\x00\x00\x07",
                answer: Ok(Brought {
                    sequence: 5,
                    records: &[],
                    skips: NO_SKIPS,
                    gap: Some(Gap {
                        expected: 9,
                        got: 5,
                    }),
                }),
                known: NO_TEMPLATE,
            },
        ],
    },
    Case {
        name: "sequence_wraps",
        steps: &[
            Step {
                message: b"\x00\x0a\x00\x32\x65\x53\xf1\x00\xff\xff\xff\xff\x00\x00\x00\x07\
\x00\x02\x00\x14\x01\x00\x00\x03\x00\x08\x00\x04\x00\x07\x00\x02\x00\x01\x00\x04\
\x01\x00\x00\x0e\xc0\x00\x02\x4d\x01\xbb\x00\x00\x05\xdc",
                answer: Ok(Brought {
                    sequence: u32::MAX,
                    records: &[&[b"\xc0\x00\x02\x4d", b"\x01\xbb", b"\x00\x00\x05\xdc"]],
                    skips: NO_SKIPS,
                    gap: None,
                }),
                known: ONE_TEMPLATE,
            },
            Step {
                message: b"\x00\x0a\x00\x10\x65\x53\xf1\x00\x00\x00\x00\x00\x00\x00\x00\x07",
                answer: Ok(Brought {
                    sequence: 0,
                    records: &[],
                    skips: NO_SKIPS,
                    gap: None,
                }),
                known: ONE_TEMPLATE,
            },
        ],
    },
    Case {
        name: "withdraw_all",
        steps: &[ // Template 256 of protocolIdentifier; options template 257 of ingressInterface, its scope, and
            // protocolIdentifier; then all templates are withdrawn, but not the options templates.
            Step {
                message: b"\x00\x0a\x00\x36\x65\x53\xf1\x00\x00\x00\x00\x00\x00\x00\x00\x07\
\x00\x02\x00\x0c\x01\x00\x00\x01\x00\x04\x00\x01\
\x00\x03\x00\x12\x01\x01\x00\x02\x00\x01\x00\x0a\x00\x04\x00\x04\x00\x01\
\x00\x02\x00\x08\x00\x02\x00\x00",
                answer: Ok(Brought {
                    sequence: 0,
                    records: &[],
                    skips: NO_SKIPS,
                    gap: None,
                }),
                known: [None, Some(1), None, None, None],
            },
            Step {
                message: b"\x00\x0a\x00\x1e\x65\x53\xf1\x00\x00\x00\x00\x00\x00\x00\x00\x07\
\x01\x00\x00\x05\x06\x01\x01\x00\x09\x00\x00\x00\x01\x11",
                answer: Ok(Brought {
                    sequence: 0,
                    records: &[&[b"\x00\x00\x00\x01", b"\x11"]],
                    skips: ONE_UNKNOWN,
                    gap: None,
                }),
                known: [None, Some(1), None, None, None],
            },
        ],
    },
    Case {
        name: "refused_template",
        steps: &[ // A sourceIPv4Address of 3 octets.
            Step {
                message: b"\x00\x0a\x00\x23\x65\x53\xf1\x00\x00\x00\x00\x00\x00\x00\x00\x07\
\x00\x02\x00\x0c\x01\x00\x00\x01\x00\x08\x00\x03\x01\x00\x00\x07\x01\x02\x03",
                answer: Ok(Brought {
                    sequence: 0,
                    records: &[],
                    skips: Skips {
                        unknown: 1,
                        reserved: 0,
                        refused: 1,
                    },
                    gap: None,
                }),
                known: NO_TEMPLATE,
            },
        ],
    },
    Case {
        name: "session_end",
        steps: &[ // The template of an earlier session.
            Step {
                message: b"\x00\x0a\x00\x1e\x65\x53\xf1\x00\x00\x00\x00\x00\x00\x00\x00\x07\
\x01\x00\x00\x0e\xc0\x00\x02\x4d\x01\xbb\x00\x00\x05\xdc",
                answer: Ok(Brought {
                    sequence: 0,
                    records: &[],
                    skips: ONE_UNKNOWN,
                    gap: None,
                }),
                known: NO_TEMPLATE,
            },
        ],
    },
    Case {
        name: "withdrawals_within_a_message",
        steps: &[ // Template 256 and options template 257; all templates are withdrawn; then 258 is defined, and a record of
            // each: 256 is unknown, though the message itself defined it.
            Step {
                message: b"\x00\x0a\x00\x51\x65\x53\xf1\x00\x00\x00\x00\x00\x00\x00\x00\x07\
\x00\x02\x00\x0c\x01\x00\x00\x01\x00\x04\x00\x01\
\x00\x03\x00\x12\x01\x01\x00\x02\x00\x01\x00\x0a\x00\x04\x00\x04\x00\x01\
\x00\x02\x00\x10\x00\x02\x00\x00\x01\x02\x00\x01\x00\x04\x00\x01\
\x01\x00\x00\x05\x06\x01\x01\x00\x09\x00\x00\x00\x01\x11\x01\x02\x00\x05\x32",
                answer: Ok(Brought {
                    sequence: 0,
                    records: &[&[b"\x00\x00\x00\x01", b"\x11"], &[b"\x32"]],
                    skips: ONE_UNKNOWN,
                    gap: None,
                }),
                known: [None, Some(1), Some(0), None, None],
            },
        ],
    },
    Case {
        name: "both_kinds_of_templates",
        steps: &[ // Template 256 and options template 257, and a record of each.
            Step {
                message: b"\x00\x0a\x00\x3c\x65\x53\xf1\x00\x00\x00\x00\x00\x00\x00\x00\x07\
\x00\x02\x00\x0c\x01\x00\x00\x01\x00\x04\x00\x01\
\x00\x03\x00\x12\x01\x01\x00\x02\x00\x01\x00\x0a\x00\x04\x00\x04\x00\x01\
\x01\x00\x00\x05\x06\x01\x01\x00\x09\x00\x00\x00\x01\x11",
                answer: Ok(Brought {
                    sequence: 0,
                    records: &[&[b"\x06"], &[b"\x00\x00\x00\x01", b"\x11"]],
                    skips: NO_SKIPS,
                    gap: None,
                }),
                known: [Some(0), Some(1), None, None, None],
            },
            // 256 becomes an options template, 257 is withdrawn, 258 is a template of interfaceName, and a record of
            // each of the two.
            Step {
                message: b"\x00\x0a\x00\x47\x65\x53\xf1\x00\x00\x00\x00\x02\x00\x00\x00\x07\
\x00\x03\x00\x12\x01\x00\x00\x02\x00\x01\x00\x0a\x00\x04\x00\x04\x00\x01\
\x00\x02\x00\x08\x01\x01\x00\x00\
\x00\x02\x00\x0c\x01\x02\x00\x01\x00\x52\xff\xff\
\x01\x00\x00\x09\x00\x00\x00\x02\x06\
\x01\x02\x00\x08\x03abc",
                answer: Ok(Brought {
                    sequence: 2,
                    records: &[&[b"\x00\x00\x00\x02", b"\x06"], &[b"abc"]],
                    skips: NO_SKIPS,
                    gap: None,
                }),
                known: [Some(1), None, Some(0), None, None],
            },
            // All templates are withdrawn, 259 is defined, all options templates are withdrawn, and a record of 256 and
            // of 259.
            Step {
                message: b"\x00\x0a\x00\x36\x65\x53\xf1\x00\x00\x00\x00\x04\x00\x00\x00\x07\
\x00\x02\x00\x10\x00\x02\x00\x00\x01\x03\x00\x01\x00\x04\x00\x01\
\x00\x03\x00\x08\x00\x03\x00\x00\
\x01\x00\x00\x09\x00\x00\x00\x03\x06\x01\x03\x00\x05\x11",
                answer: Ok(Brought {
                    sequence: 4,
                    records: &[&[b"\x11"]],
                    skips: ONE_UNKNOWN,
                    gap: None,
                }),
                known: [None, None, None, Some(0), None],
            },
            // 256 is a template of interfaceName, 259 is withdrawn, and a record of 256 goes past its set.
            Step {
                message: b"\x00\x0a\x00\x2b\x65\x53\xf1\x00\x00\x00\x00\x05\x00\x00\x00\x07\
\x00\x02\x00\x0c\x01\x00\x00\x01\x00\x52\xff\xff\x00\x02\x00\x08\x01\x03\x00\x00\
\x01\x00\x00\x07\x03ab",
                answer: Err(ReadError::RecordOverrun),
                known: [None, None, None, Some(0), None],
            },
        ],
    },
];

/// The scope count of the template in force for a domain and an ID.
fn scope_of(session: &Session, domain: u32, id: u16) -> Option<u16> {
    match session.template(domain, id) {
        Some(template) => Some(template.scope),
        None => None,
    }
}

/// What of templates each step tells.
fn known(session: &Session) -> [Option<u16>; 5] {
    [
        scope_of(session, 7, 256),
        scope_of(session, 7, 257),
        scope_of(session, 7, 258),
        scope_of(session, 7, 259),
        scope_of(session, 8, 256),
    ]
}

/// That the records have these values.
fn expect_records(rt: &impl Abort, name: &str, found: &[Record], wanted: &[&[&[u8]]]) {
    assert_eq!(rt; found.len(), wanted.len(), "records of {name}");
    for (next, values) in found.iter().zip(wanted) {
        assert_eq!(rt;
            next.template().fields.len(),
            values.len(),
            "values of {name}"
        );
        for ((_, value), octets) in next.entries().zip(*values) {
            assert_eq!(rt; value, *octets, "a value of {name}");
        }
    }
}

/// That a message brought this.
fn expect_read(
    rt: &impl Abort,
    alloc: Global,
    name: &str,
    found: &Read,
    wanted: &Brought,
) -> Result<(), AllocError> {
    assert_eq!(rt; found.header.sequence, wanted.sequence, "{name}");
    assert_eq!(rt; found.skips, wanted.skips, "{name}");
    assert_eq!(rt; found.gap, wanted.gap, "{name}");
    let list = found.records.to_vec(alloc)?;
    expect_records(rt, name, &list, wanted.records);
    Ok(())
}

/// That the next message of the session is answered so.
fn expect_step(
    rt: &impl Abort,
    alloc: Global,
    name: &str,
    session: &mut Session,
    step: &Step,
) -> Result<(), AllocError> {
    match (session.apply(step.message), &step.answer) {
        (Ok(found), Ok(wanted)) => expect_read(rt, alloc, name, &found, wanted)?,
        (Err(fault), Err(wanted)) => assert_eq!(rt; fault, *wanted, "{name}"),
        (Ok(_), Err(wanted)) => panic!(rt; "{wanted} was due in {name}"),
        (Err(fault), Ok(_)) => panic!(rt; "{fault} in {name}"),
    }
    assert_eq!(rt; known(session), step.known, "templates of {name}");
    Ok(())
}

/// Each message is read by a copy of the session before.
#[test]
fn messages(rt: HostRuntime) -> Result<(), Fail> {
    for case in &CASES {
        let mut session = Session::new(rt.alloc());
        for step in case.steps {
            session = session.copy()?;
            expect_step(&rt, rt.alloc(), case.name, &mut session, step)?;
        }
    }
    Ok(())
}

static FAULTS: [(ReadError, &str); 3] = [
    (ReadError::Malformed(DecodeError::BadLength), "Malformed"),
    (ReadError::RecordOverrun, "RecordOverrun"),
    (ReadError::OutOfMemory, "OutOfMemory"),
];

#[test]
fn error_texts(rt: HostRuntime) -> Result<(), Fail> {
    for (fault, want) in &FAULTS {
        assert_eq!(rt; format!(in rt.alloc(); "{fault}")?.as_str(), *want);
    }
    Ok(())
}

/// A template of octetDeltaCount, and two records of it.
const TWO_RECORDS: &[u8] = b"\x00\x0a\x00\x28\x65\x53\xf1\x00\x00\x00\x00\x00\x00\x00\x00\x07\
\x00\x02\x00\x0c\x01\x00\x00\x01\x00\x01\x00\x04\
\x01\x00\x00\x0c\x00\x00\x05\xdc\x00\x00\x00\x28";

/// A message is read, room is made for what it defines, and it is kept. The values are cuts of the message: without a copy it has
/// other owners.
#[test]
fn three_steps(rt: HostRuntime) -> Result<(), Fail> {
    let mut session = Session::new(rt.alloc());
    let message = Bytes::copy_from_slice(rt.alloc(), TWO_RECORDS)?;
    let reading = session.read(&message)?;
    assert!(rt; !message.is_unique());
    session.make_room(&reading)?;
    assert!(rt; session.template(7, 256).is_none());
    let kept = session.keep(reading);
    assert!(rt; session.template(7, 256).is_some());
    drop(kept);
    assert!(rt; message.is_unique());
    Ok(())
}
