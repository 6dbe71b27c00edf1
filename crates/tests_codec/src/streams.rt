//! Worked cases: what a stream gives of the records that it is given, and what it has room for.
use crate::records::{Layout, record_of, template_of, values_of};
use ipfix_records::Records;
use ipfix_session::Session;
use std::alloc::{AllocError, Global};
use std::process::Abort;
use std::test::Fail;
use subscriber_stream::{MessagePieces, Stream, StreamLimits};

/// The Export Time of the worked cases.
const NOW: u32 = 0x6553_f13c;

/// sourceIPv4Address, sourceTransportPort and octetDeltaCount.
const FLOW: Layout = Layout {
    fields: &[(8, 4), (7, 2), (1, 4)],
    scope: 0,
};

const PROTOCOL: Layout = Layout {
    fields: &[(4, 1)],
    scope: 0,
};

const IP_VERSION: Layout = Layout {
    fields: &[(60, 1)],
    scope: 0,
};

/// An interfaceName of variable length.
const NAME: Layout = Layout {
    fields: &[(82, 65535)],
    scope: 0,
};

/// An interfaceName of variable length, with its ingressInterface as the scope.
const INTERFACE: Layout = Layout {
    fields: &[(10, 4), (82, 65535)],
    scope: 1,
};

/// A record that is given to a stream, with a template of its own.
struct Given {
    layout: Layout,
    values: &'static [&'static [u8]],
}

const ONE_FLOW: Given = Given {
    layout: FLOW,
    values: &[b"\xc0\x00\x02\x4d", b"\x01\xbb", b"\x00\x00\x05\xdc"],
};

/// What a stream gives of one flow first: its template, and the record.
const FIRST_FLOW: &[u8] = b"\x00\x0a\x00\x32\x65\x53\xf1\x3c\x00\x00\x00\x00\x00\x00\x00\x00\
\x00\x02\x00\x14\x01\x00\x00\x03\x00\x08\x00\x04\x00\x07\x00\x02\x00\x01\x00\x04\
\x01\x00\x00\x0e\xc0\x00\x02\x4d\x01\xbb\x00\x00\x05\xdc";

/// A template of octetDeltaCount, and three records of it in one Data Set.
const THREE_RECORDS: &[u8] = b"\x00\x0a\x00\x2c\x65\x53\xf1\x00\x00\x00\x00\x00\x00\x00\x00\x07\
\x00\x02\x00\x0c\x01\x2c\x00\x01\x00\x01\x00\x04\
\x01\x2c\x00\x10\x00\x00\x05\xdc\x00\x00\x00\x28\x00\x00\x00\x07";

/// What is done with a stream, and what is due.
enum Step {
    /// Records are given, for which there is room.
    Give(&'static [Given]),
    /// The records of this message, which are one run, are given, for which there is room.
    GiveMessage(&'static [u8]),
    /// There is no room for these records.
    NoRoom(&'static [Given]),
    /// How many records wait, how many templates are known, and how many records were handed out, in this order.
    Counts(u32, u32, u64),
    /// A message of this target is pulled, and is this one.
    Pull(u16, &'static [u8]),
    /// A message of this target is pulled, and has this length: first the target, then the length, both in octets.
    PullLength(u16, usize),
    /// Nothing waits.
    End,
}

/// A new stream with these limits, by the name of the case that it works out.
struct Case {
    name: &'static str,
    queue: u32,
    shapes: u32,
    steps: &'static [Step],
}

static CASES: [Case; 13] = [
    Case {
        name: "one_record",
        queue: 100,
        shapes: 100,
        steps: &[
            Step::Give(&[ONE_FLOW]),
            Step::Counts(1, 1, 0),
            Step::Pull(1400, FIRST_FLOW),
            Step::Counts(0, 1, 1),
            Step::End,
        ],
    },
    Case {
        name: "small_target",
        queue: 100,
        shapes: 100,
        steps: &[
            Step::Give(&[ONE_FLOW]),
            Step::Give(&[ONE_FLOW]),
            Step::Pull(
                16,
                b"\x00\x0a\x00\x24\x65\x53\xf1\x3c\x00\x00\x00\x00\x00\x00\x00\x00\
\x00\x02\x00\x14\x01\x00\x00\x03\x00\x08\x00\x04\x00\x07\x00\x02\x00\x01\x00\x04",
            ),
            Step::Pull(
                16,
                b"\x00\x0a\x00\x1e\x65\x53\xf1\x3c\x00\x00\x00\x00\x00\x00\x00\x00\
\x01\x00\x00\x0e\xc0\x00\x02\x4d\x01\xbb\x00\x00\x05\xdc",
            ),
            Step::Pull(
                16,
                b"\x00\x0a\x00\x1e\x65\x53\xf1\x3c\x00\x00\x00\x01\x00\x00\x00\x00\
\x01\x00\x00\x0e\xc0\x00\x02\x4d\x01\xbb\x00\x00\x05\xdc",
            ),
            Step::End,
        ],
    },
    Case {
        name: "withdraw_and_redefine",
        queue: 100,
        shapes: 100,
        steps: &[
            Step::Give(&[Given {
                layout: PROTOCOL,
                values: &[b"\x06"],
            }]),
            Step::Give(&[Given {
                layout: IP_VERSION,
                values: &[b"\x04"],
            }]),
            Step::Pull(
                1400,
                b"\x00\x0a\x00\x32\x65\x53\xf1\x3c\x00\x00\x00\x00\x00\x00\x00\x00\
\x00\x02\x00\x0c\x01\x00\x00\x01\x00\x04\x00\x01\x01\x00\x00\x05\x06\
\x00\x02\x00\x0c\x01\x01\x00\x01\x00\x3c\x00\x01\x01\x01\x00\x05\x04",
            ),
            // An equal template is no new one, whoever made it.
            Step::Give(&[Given {
                layout: PROTOCOL,
                values: &[b"\x11"],
            }]),
            Step::Pull(
                1400,
                b"\x00\x0a\x00\x15\x65\x53\xf1\x3c\x00\x00\x00\x02\x00\x00\x00\x00\
\x01\x00\x00\x05\x11",
            ),
            Step::End,
        ],
    },
    Case {
        name: "value_lengths",
        queue: 100,
        shapes: 100,
        steps: &[
            Step::Give(&[
                Given {
                    layout: NAME,
                    values: &[b""],
                },
                Given {
                    layout: NAME,
                    values: &[
                        b"aaaaaaaaaaaaaaaaaaaaaaaaaaaaaaaaaaaaaaaaaaaaaaaaaaaaaaaaaaaaaaaa\
aaaaaaaaaaaaaaaaaaaaaaaaaaaaaaaaaaaaaaaaaaaaaaaaaaaaaaaaaaaaaaaa\
aaaaaaaaaaaaaaaaaaaaaaaaaaaaaaaaaaaaaaaaaaaaaaaaaaaaaaaaaaaaaaaa\
aaaaaaaaaaaaaaaaaaaaaaaaaaaaaaaaaaaaaaaaaaaaaaaaaaaaaaaaaaaaaa",
                    ],
                },
                Given {
                    layout: NAME,
                    values: &[
                        b"aaaaaaaaaaaaaaaaaaaaaaaaaaaaaaaaaaaaaaaaaaaaaaaaaaaaaaaaaaaaaaaa\
aaaaaaaaaaaaaaaaaaaaaaaaaaaaaaaaaaaaaaaaaaaaaaaaaaaaaaaaaaaaaaaa\
aaaaaaaaaaaaaaaaaaaaaaaaaaaaaaaaaaaaaaaaaaaaaaaaaaaaaaaaaaaaaaaa\
aaaaaaaaaaaaaaaaaaaaaaaaaaaaaaaaaaaaaaaaaaaaaaaaaaaaaaaaaaaaaaa",
                    ],
                },
                Given {
                    layout: NAME,
                    values: &[b"aaa"],
                },
            ]),
            Step::Pull(
                1400,
                b"\x00\x0a\x02\x26\x65\x53\xf1\x3c\x00\x00\x00\x00\x00\x00\x00\x00\
\x00\x02\x00\x0c\x01\x00\x00\x01\x00\x52\xff\xff\
\x01\x00\x02\x0a\x00\xfe\
aaaaaaaaaaaaaaaaaaaaaaaaaaaaaaaaaaaaaaaaaaaaaaaaaaaaaaaaaaaaaaaa\
aaaaaaaaaaaaaaaaaaaaaaaaaaaaaaaaaaaaaaaaaaaaaaaaaaaaaaaaaaaaaaaa\
aaaaaaaaaaaaaaaaaaaaaaaaaaaaaaaaaaaaaaaaaaaaaaaaaaaaaaaaaaaaaaaa\
aaaaaaaaaaaaaaaaaaaaaaaaaaaaaaaaaaaaaaaaaaaaaaaaaaaaaaaaaaaaaa\
\xff\x00\xff\
aaaaaaaaaaaaaaaaaaaaaaaaaaaaaaaaaaaaaaaaaaaaaaaaaaaaaaaaaaaaaaaa\
aaaaaaaaaaaaaaaaaaaaaaaaaaaaaaaaaaaaaaaaaaaaaaaaaaaaaaaaaaaaaaaa\
aaaaaaaaaaaaaaaaaaaaaaaaaaaaaaaaaaaaaaaaaaaaaaaaaaaaaaaaaaaaaaaa\
aaaaaaaaaaaaaaaaaaaaaaaaaaaaaaaaaaaaaaaaaaaaaaaaaaaaaaaaaaaaaaa\
\x03aaa",
            ),
            Step::End,
        ],
    },
    Case {
        name: "options_template",
        queue: 100,
        shapes: 100,
        steps: &[
            Step::Give(&[Given {
                layout: INTERFACE,
                values: &[b"\x00\x00\x00\x07", b"eth7"],
            }]),
            Step::Pull(
                1400,
                b"\x00\x0a\x00\x2f\x65\x53\xf1\x3c\x00\x00\x00\x00\x00\x00\x00\x00\
\x00\x03\x00\x12\x01\x00\x00\x02\x00\x01\x00\x0a\x00\x04\x00\x52\xff\xff\
\x01\x00\x00\x0d\x00\x00\x00\x07\x04eth7",
            ),
            Step::End,
        ],
    },
    Case {
        name: "target_of_the_exact_length",
        queue: 100,
        shapes: 100,
        steps: &[
            Step::Give(&[ONE_FLOW]),
            Step::Give(&[ONE_FLOW]),
            Step::PullLength(60, 60),
            Step::End,
        ],
    },
    Case {
        name: "target_of_the_exact_length",
        queue: 100,
        shapes: 100,
        steps: &[
            Step::Give(&[ONE_FLOW]),
            Step::Give(&[ONE_FLOW]),
            Step::PullLength(59, 50),
            Step::PullLength(59, 30),
            Step::End,
        ],
    },
    // Two of the records and the announcement have 40 octets; the third comes in the next message, behind two.
    Case {
        name: "a_run_is_handed_out_in_parts",
        queue: 3,
        shapes: 1,
        steps: &[
            Step::GiveMessage(THREE_RECORDS),
            Step::Pull(
                43,
                b"\x00\x0a\x00\x28\x65\x53\xf1\x3c\x00\x00\x00\x00\x00\x00\x00\x00\
\x00\x02\x00\x0c\x01\x00\x00\x01\x00\x01\x00\x04\
\x01\x00\x00\x0c\x00\x00\x05\xdc\x00\x00\x00\x28",
            ),
            Step::Counts(1, 1, 2),
            Step::Pull(
                43,
                b"\x00\x0a\x00\x18\x65\x53\xf1\x3c\x00\x00\x00\x02\x00\x00\x00\x00\
\x01\x00\x00\x08\x00\x00\x00\x07",
            ),
            Step::End,
        ],
    },
    // What is left of a run, and the runs behind it, share a Data Set.
    Case {
        name: "runs_of_one_template_share_a_set",
        queue: 6,
        shapes: 1,
        steps: &[
            Step::GiveMessage(THREE_RECORDS),
            Step::GiveMessage(THREE_RECORDS),
            Step::Pull(
                36,
                b"\x00\x0a\x00\x24\x65\x53\xf1\x3c\x00\x00\x00\x00\x00\x00\x00\x00\
\x00\x02\x00\x0c\x01\x00\x00\x01\x00\x01\x00\x04\
\x01\x00\x00\x08\x00\x00\x05\xdc",
            ),
            Step::Pull(
                39,
                b"\x00\x0a\x00\x24\x65\x53\xf1\x3c\x00\x00\x00\x01\x00\x00\x00\x00\
\x01\x00\x00\x14\x00\x00\x00\x28\x00\x00\x00\x07\x00\x00\x05\xdc\x00\x00\x00\x28",
            ),
            Step::PullLength(39, 24),
            Step::End,
        ],
    },
    Case {
        name: "room_to_the_limits",
        queue: 3,
        shapes: 1,
        steps: &[
            Step::NoRoom(&[
                Given {
                    layout: PROTOCOL,
                    values: &[b"\x06"],
                },
                Given {
                    layout: PROTOCOL,
                    values: &[b"\x07"],
                },
                Given {
                    layout: IP_VERSION,
                    values: &[b"\x04"],
                },
            ]),
            Step::Give(&[
                Given {
                    layout: PROTOCOL,
                    values: &[b"\x06"],
                },
                Given {
                    layout: PROTOCOL,
                    values: &[b"\x07"],
                },
            ]),
            Step::NoRoom(&[
                Given {
                    layout: PROTOCOL,
                    values: &[b"\x08"],
                },
                Given {
                    layout: PROTOCOL,
                    values: &[b"\x09"],
                },
            ]),
            Step::Give(&[Given {
                layout: PROTOCOL,
                values: &[b"\x08"],
            }]),
            Step::Counts(3, 1, 0),
        ],
    },
    Case {
        name: "full_queue, acme: one waits",
        queue: 3,
        shapes: 100,
        steps: &[
            Step::Give(&[ONE_FLOW]),
            Step::NoRoom(&[ONE_FLOW, ONE_FLOW, ONE_FLOW]),
            Step::Pull(1400, FIRST_FLOW),
            Step::End,
        ],
    },
    Case {
        name: "full_queue, beta: it was pulled",
        queue: 3,
        shapes: 100,
        steps: &[
            Step::Give(&[ONE_FLOW]),
            Step::Pull(1400, FIRST_FLOW),
            Step::Give(&[ONE_FLOW, ONE_FLOW, ONE_FLOW]),
            Step::Pull(
                1400,
                b"\x00\x0a\x00\x32\x65\x53\xf1\x3c\x00\x00\x00\x01\x00\x00\x00\x00\
\x01\x00\x00\x22\xc0\x00\x02\x4d\x01\xbb\x00\x00\x05\xdc\
\xc0\x00\x02\x4d\x01\xbb\x00\x00\x05\xdc\
\xc0\x00\x02\x4d\x01\xbb\x00\x00\x05\xdc",
            ),
            Step::End,
        ],
    },
    Case {
        name: "shapes_limit",
        queue: 100,
        shapes: 1,
        steps: &[
            Step::NoRoom(&[
                Given {
                    layout: PROTOCOL,
                    values: &[b"\x06"],
                },
                Given {
                    layout: IP_VERSION,
                    values: &[b"\x04"],
                },
            ]),
            Step::End,
        ],
    },
];

fn records_of(alloc: Global, given: &[Given]) -> Result<Records, Fail> {
    let mut records = Records::new(alloc);
    for next in given {
        let template = template_of(alloc, &next.layout)?;
        let values = values_of(alloc, next.values)?;
        records.push(alloc, record_of(alloc, template, values)?)?;
    }
    Ok(records)
}

/// Gives the records to the stream, where there is room for them.
fn give(stream: &mut Stream, records: Records) -> Result<bool, AllocError> {
    stream.reserve(&records)?;
    let total = stream
        .handed()
        .saturating_add(u64::from(stream.queued()))
        .saturating_add(records.len() as u64);
    if total == u64::MAX || !stream.room(&records) {
        return Ok(false);
    }
    stream.push_reserved(records);
    Ok(true)
}

fn counts(stream: &Stream) -> (u32, u32, u64) {
    (stream.queued(), stream.shapes(), stream.handed())
}

/// Whether the stream takes these records.
fn takes(alloc: Global, stream: &mut Stream, given: &[Given]) -> Result<bool, Fail> {
    let records = records_of(alloc, given)?;
    Ok(give(stream, records)?)
}

/// Whether it takes the records of a message.
fn takes_message(alloc: Global, stream: &mut Stream, message: &[u8]) -> Result<bool, Fail> {
    let read = Session::new(alloc).apply(message)?;
    Ok(give(stream, read.records)?)
}

/// Whether it has room for these records.
fn has_room(alloc: Global, stream: &Stream, given: &[Given]) -> Result<bool, Fail> {
    let records = records_of(alloc, given)?;
    Ok(stream.room(&records))
}

/// How a message is pulled.
#[derive(Clone, Copy, Debug)]
enum Way {
    /// By `pull`.
    Whole,
    /// By `pull_to`.
    IntoList,
    /// By `pull_pieces`, all of which are appended.
    InPieces,
    /// By `pull_pieces`, a chunk at a time.
    InChunks,
}

const WAYS: [Way; 4] = [Way::Whole, Way::IntoList, Way::InPieces, Way::InChunks];

/// Appends the octets of a message, a chunk at a time.
fn append_chunks(message: &MessagePieces, octets: &mut Vec<u8>) -> Result<(), AllocError> {
    let mut start = 0usize;
    for _ in 0..message.len() {
        if start >= message.len() {
            break;
        }
        let chunk = message.chunk(start);
        octets.extend_from_slice(chunk)?;
        start = start.saturating_add(chunk.len());
    }
    Ok(())
}

/// Pulls its next message in this way, puts its octets into `octets`, and answers whether there was one.
fn pull_by(
    stream: &mut Stream,
    way: Way,
    target: u16,
    octets: &mut Vec<u8>,
) -> Result<bool, AllocError> {
    match way {
        Way::IntoList => return stream.pull_to(NOW, target, octets),
        Way::Whole => match stream.pull(NOW, target)? {
            Some(message) => octets.extend_from_slice(message.as_slice())?,
            None => return Ok(false),
        },
        Way::InPieces => match stream.pull_pieces(NOW, target)? {
            Some(message) => message.append_to(octets)?,
            None => return Ok(false),
        },
        Way::InChunks => match stream.pull_pieces(NOW, target)? {
            Some(message) => append_chunks(&message, octets)?,
            None => return Ok(false),
        },
    }
    Ok(true)
}

/// Whether its next message has these octets.
fn pulls(
    alloc: Global,
    stream: &mut Stream,
    way: Way,
    target: u16,
    wanted: &[u8],
) -> Result<bool, AllocError> {
    let mut octets = Vec::new(alloc);
    let is_there = pull_by(stream, way, target, &mut octets)?;
    Ok(is_there && octets.as_slice() == wanted)
}

/// Whether the next message of a stream, pulled with the target `target`, is `length` octets long.
fn pulls_octets(
    alloc: Global,
    stream: &mut Stream,
    way: Way,
    target: u16,
    length: usize,
) -> Result<bool, AllocError> {
    let mut octets = Vec::new(alloc);
    let is_there = pull_by(stream, way, target, &mut octets)?;
    Ok(is_there && octets.len() == length)
}

/// Whether nothing waits in it.
fn is_at_its_end(alloc: Global, stream: &mut Stream, way: Way) -> Result<bool, AllocError> {
    let mut octets = Vec::new(alloc);
    let is_there = pull_by(stream, way, 1400, &mut octets)?;
    Ok(!is_there && stream.queued() == 0)
}

/// Whether what a step says of the stream is so, where messages are pulled in this way.
fn holds(alloc: Global, stream: &mut Stream, way: Way, step: &Step) -> Result<bool, Fail> {
    Ok(match step {
        Step::Give(given) => takes(alloc, stream, given)?,
        Step::GiveMessage(message) => takes_message(alloc, stream, message)?,
        Step::NoRoom(given) => !has_room(alloc, stream, given)?,
        Step::Counts(queued, shapes, handed) => counts(stream) == (*queued, *shapes, *handed),
        Step::Pull(target, wanted) => pulls(alloc, stream, way, *target, wanted)?,
        Step::PullLength(target, length) => pulls_octets(alloc, stream, way, *target, *length)?,
        Step::End => is_at_its_end(alloc, stream, way)?,
    })
}

/// That what the steps of a case say is so, where messages are pulled in this way.
fn expect_case(rt: &impl Abort, alloc: Global, way: Way, case: &Case) -> Result<(), Fail> {
    assert!(rt; case.shapes <= 65_280);
    let limits = StreamLimits {
        queue: case.queue,
        shapes: case.shapes,
    };
    let mut stream = Stream::new(alloc, limits);
    for (number, step) in case.steps.iter().enumerate() {
        assert!(rt;
            holds(alloc, &mut stream, way, step)?,
            "step {number} of {}, {way:?}",
            case.name
        );
    }
    Ok(())
}

#[test]
fn streams(rt: HostRuntime) -> Result<(), Fail> {
    for case in &CASES {
        for way in WAYS {
            expect_case(&rt, rt.alloc(), way, case)?;
        }
    }
    Ok(())
}
