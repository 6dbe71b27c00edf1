//! Worked cases of framing, and of what is no message.
use bytes::Bytes;
use ipfix_message::{Fault, Framer, items};
use std::alloc::{AllocError, Global};
use std::process::Abort;
use std::test::Fail;

/// A template and one record of it, 50 octets.
const ONE_RECORD: &[u8] = b"\x00\x0a\x00\x32\x65\x53\xf1\x00\x00\x00\x00\x00\x00\x00\x00\x07\
\x00\x02\x00\x14\x01\x00\x00\x03\x00\x08\x00\x04\x00\x07\x00\x02\x00\x01\x00\x04\
\x01\x00\x00\x0e\xc0\x00\x02\x4d\x01\xbb\x00\x00\x05\xdc";

/// A piece of a stream, and the answer: how many messages become whole, each the one record, or the fault.
/// After it `pending` octets wait, and `fault` stands.
struct Piece {
    octets: &'static [u8],
    answer: Result<usize, Fault>,
    pending: usize,
    fault: Option<Fault>,
}

/// The pieces of a stream, by the name of the case that they work out.
struct Case {
    name: &'static str,
    pieces: &'static [Piece],
}

const BAD_VERSION: Piece = Piece {
    octets: b"\x10",
    answer: Err(Fault::BadVersion),
    pending: 0,
    fault: Some(Fault::BadVersion),
};

static CASES: [Case; 8] = [
    Case {
        name: "message_and_then_a_fault",
        pieces: &[
            // The message of one record, and the front of one of version 9.
            Piece {
                octets: b"\x00\x0a\x00\x32\x65\x53\xf1\x00\x00\x00\x00\x00\x00\x00\x00\x07\
\x00\x02\x00\x14\x01\x00\x00\x03\x00\x08\x00\x04\x00\x07\x00\x02\x00\x01\x00\x04\
\x01\x00\x00\x0e\xc0\x00\x02\x4d\x01\xbb\x00\x00\x05\xdc\x00\x09\x00\x10",
                answer: Ok(1),
                pending: 0,
                fault: Some(Fault::BadVersion),
            },
            Piece {
                octets: ONE_RECORD,
                answer: Err(Fault::BadVersion),
                pending: 0,
                fault: Some(Fault::BadVersion),
            },
            Piece {
                octets: b"",
                answer: Err(Fault::BadVersion),
                pending: 0,
                fault: Some(Fault::BadVersion),
            },
        ],
    },
    Case {
        name: "faults_show_with_four_octets",
        pieces: &[
            Piece {
                octets: b"\x00\x09\x00",
                answer: Ok(0),
                pending: 3,
                fault: None,
            },
            BAD_VERSION,
        ],
    },
    // Version 9 and length 15 are wrong both: the version is judged first.
    Case {
        name: "faults_show_with_four_octets",
        pieces: &[
            Piece {
                octets: b"\x00\x09\x00",
                answer: Ok(0),
                pending: 3,
                fault: None,
            },
            Piece {
                octets: b"\x0f",
                answer: Err(Fault::BadVersion),
                pending: 0,
                fault: Some(Fault::BadVersion),
            },
        ],
    },
    Case {
        name: "faults_show_with_four_octets",
        pieces: &[
            Piece {
                octets: b"\x0a\x0a\x00",
                answer: Ok(0),
                pending: 3,
                fault: None,
            },
            BAD_VERSION,
        ],
    },
    Case {
        name: "faults_show_with_four_octets",
        pieces: &[
            Piece {
                octets: b"\x00\x0a\x00",
                answer: Ok(0),
                pending: 3,
                fault: None,
            },
            Piece {
                octets: b"\x0f",
                answer: Err(Fault::BadLength),
                pending: 0,
                fault: Some(Fault::BadLength),
            },
        ],
    },
    Case {
        name: "faults_show_with_four_octets",
        pieces: &[
            Piece {
                octets: b"\x00\x0a\x00",
                answer: Ok(0),
                pending: 3,
                fault: None,
            },
            Piece {
                octets: b"\x00",
                answer: Err(Fault::BadLength),
                pending: 0,
                fault: Some(Fault::BadLength),
            },
        ],
    },
    Case {
        name: "cut_off",
        pieces: &[Piece {
            octets: b"\x00\x0a\x00\x32\x65\x53\xf1\x00\x00\x00\x00\x00\x00\x00\x00\x07\
\x00\x02\x00\x14\x01\x00\x00\x03\x00\x08\x00\x04\x00\x07\x00\x02\x00\x01\x00\x04\
\x01\x00\x00\x0e\xc0\x00\x02\x4d\x01\xbb\x00\x00\x05",
            answer: Ok(0),
            pending: 49,
            fault: None,
        }],
    },
    Case {
        name: "three_messages_in_three_pieces",
        pieces: &[
            Piece {
                octets: b"\x00\x0a\x00\x32\x65\x53\xf1\x00\x00\x00\x00\x00\x00\x00\x00\x07\
\x00\x02\x00\x14\x01\x00\x00\x03\x00\x08\x00\x04\x00\x07\x00\x02\x00\x01\x00\x04\
\x01\x00\x00\x0e\xc0\x00\x02\x4d\x01\xbb\x00\x00\x05",
                answer: Ok(0),
                pending: 49,
                fault: None,
            },
            Piece {
                octets: b"\xdc\x00\x0a\x00\x32\x65\x53\xf1\x00\x00\x00\x00\x00\x00\x00\x00\x07\
\x00\x02\x00\x14\x01\x00\x00\x03\x00\x08\x00\x04\x00\x07\x00\x02\x00\x01\x00\x04\
\x01\x00\x00\x0e\xc0\x00\x02\x4d\x01\xbb\x00\x00\x05\xdc\
\x00\x0a\x00\x32\x65\x53\xf1\x00\x00\x00\x00\x00\x00\x00\x00\x07\
\x00\x02\x00\x14\x01\x00\x00\x03\x00\x08\x00\x04\x00\x07\x00\x02\x00\x01\x00\x04\
\x01\x00\x00\x0e",
                answer: Ok(2),
                pending: 40,
                fault: None,
            },
            Piece {
                octets: b"\xc0\x00\x02\x4d\x01\xbb\x00\x00\x05\xdc",
                answer: Ok(1),
                pending: 0,
                fault: None,
            },
        ],
    },
];

/// How many messages a piece makes whole; each is this one.
fn feed(
    rt: &impl Abort,
    framer: &mut Framer,
    octets: &[u8],
    message: &[u8],
) -> Result<usize, Fault> {
    let found = framer.feed(octets)?;
    for next in &found {
        assert_eq!(rt; next.as_slice(), message);
    }
    Ok(found.len())
}

fn expect_piece(rt: &impl Abort, name: &str, framer: &mut Framer, piece: &Piece) {
    let answer = feed(rt, framer, piece.octets, ONE_RECORD);
    assert_eq!(rt; answer, piece.answer, "{name}");
    assert_eq!(rt; framer.pending(), piece.pending, "{name}");
    assert_eq!(rt; framer.fault(), piece.fault, "{name}");
}

#[test]
fn pieces(rt: HostRuntime) {
    for case in &CASES {
        let mut framer = Framer::new(rt.alloc());
        for piece in case.pieces {
            expect_piece(&rt, case.name, &mut framer, piece);
        }
    }
}

static FAULTS: [(Fault, &str); 6] = [
    (Fault::ShortHeader, "ShortHeader"),
    (Fault::BadVersion, "BadVersion"),
    (Fault::BadLength, "BadLength"),
    (Fault::BadSetLength, "BadSetLength"),
    (Fault::TemplateOverrun, "TemplateOverrun"),
    (Fault::OutOfMemory, "OutOfMemory"),
];

#[test]
fn error_texts(rt: HostRuntime) -> Result<(), Fail> {
    for (fault, want) in &FAULTS {
        assert_eq!(rt; format!(in rt.alloc(); "{fault}")?.as_str(), *want);
    }
    Ok(())
}

/// Why octets are no message, if they are none.
fn fault_of(alloc: Global, octets: &[u8]) -> Option<Fault> {
    match items(alloc, octets) {
        Ok(_) => None,
        Err(fault) => Some(fault),
    }
}

/// Each front of the message is none: its header is short, or its length is another.
#[test]
fn fronts_of_a_message(rt: HostRuntime) {
    for length in 0..ONE_RECORD.len() {
        let fault = if length < 16 {
            Fault::ShortHeader
        } else {
            Fault::BadLength
        };
        let found = fault_of(rt.alloc(), &ONE_RECORD[..length]);
        assert_eq!(rt; found, Some(fault), "{length}");
    }
}

/// Each front of the message from 16 octets on, with its own length in the header. It is a message only where it ends
/// with the header or with the first set.
#[test]
fn fronts_with_their_length(rt: HostRuntime) -> Result<(), AllocError> {
    for length in 16u8..50 {
        let mut octets = ONE_RECORD[..usize::from(length)].to_vec(rt.alloc())?;
        octets[3] = length;
        let fault = match length {
            16 => None,
            36 => None,
            _ => Some(Fault::BadSetLength),
        };
        assert_eq!(rt; fault_of(rt.alloc(), octets.as_slice()), fault, "{length}");
    }
    Ok(())
}
