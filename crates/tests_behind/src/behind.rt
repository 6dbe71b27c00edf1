//! Writers and audits that leave writing to a thread, over writers that take few octets at a call, or fail. What no clause says is
//! shown: that all has left behind a flush, that a failure is answered, and that each call returns. Where a run was refused memory
//! it may have no thread, and is made again.
use crate::system::System;
use audit_behind::AuditBehind;
use disclosure_audit::{AuditEntry, Reason, RemovedField, RemovedFields, What};
use mediator_offline::{AuditSink, Fault};
use octet_io::{Device, Failed};
use std::alloc::{AllocError, Global};
use std::io::ErrorKind::BrokenPipe;
use std::io::{self, BufWriter, Write};
use std::mem;
use std::sync::{Arc, Mutex, Wait};
use std::test::Fail;
use test_io::Narrow;
use write_behind::WriteBehind;

/// How many octets are written: more than may wait for a thread, which are 524,288.
const MANY: u32 = 1_300_000;

/// Room for what a run writes.
const ROOM: usize = 2_000_000;

/// Room in a buffer before a writer.
const BUFFER: usize = 4096;

/// How many octets are written before each flush.
const PIECE: usize = 300_000;

/// More calls than a run makes, and more octets.
const NEVER: usize = usize::MAX;

/// The octets that are written.
fn octets(alloc: Global, count: u32) -> Result<Vec<u8>, AllocError> {
    (0..count)
        .map(|place| (place.wrapping_mul(7) % 251) as u8)
        .collect(alloc)
}

/// A writer that is told of at two places, so that what it took is seen while a thread has it.
#[derive(Drop)]
struct Shared<R> {
    rt: R,
    narrow: Arc<Mutex<Narrow>>,
}

impl<R: Wait + Copy> Shared<R> {
    /// A writer that takes at most `most` octets a call, and fails after `calls` calls.
    fn new(rt: R, alloc: Global, most: usize, calls: usize) -> Result<Shared<R>, AllocError> {
        let narrow = Narrow::new(alloc, ROOM, most, calls, BrokenPipe)?;
        Ok(Shared {
            rt,
            narrow: Arc::new(alloc, Mutex::new(narrow))?,
        })
    }

    /// This writer a second time.
    fn same(&self) -> Result<Shared<R>, AllocError> {
        Ok(Shared {
            rt: self.rt,
            narrow: self.narrow.clone()?,
        })
    }

    /// Whether it took these octets, and no others.
    fn took(&self, octets: &[u8]) -> bool {
        self.narrow.lock(&self.rt).octets.as_slice() == octets
    }

    /// Whether what it took is a front of these octets, of this length.
    fn took_front(&self, octets: &[u8], count: usize) -> bool {
        let narrow = self.narrow.lock(&self.rt);
        narrow.octets.len() == count && octets.starts_with(narrow.octets.as_slice())
    }
}

impl<R: Wait> Write for Shared<R> {
    fn write(&mut self, octets: &[u8]) -> io::Result<usize> {
        self.narrow.lock(&self.rt).write(octets)
    }

    fn flush(&mut self) -> io::Result<()> {
        Ok(())
    }
}

/// Octets that are written in pieces of `piece`, with a flush behind the first `flush` octets, to a writer that takes at most `most` a
/// call.
#[derive(Clone, Copy)]
struct Pieces {
    name: &'static str,
    piece: usize,
    flush: usize,
    most: usize,
}

const PIECES: &[Pieces] = &[
    Pieces {
        name: "octet by octet",
        piece: 1,
        flush: NEVER,
        most: ROOM,
    },
    Pieces {
        name: "as messages are",
        piece: 1460,
        flush: NEVER,
        most: 1000,
    },
    Pieces {
        name: "more than may wait, to a slow writer",
        piece: 600_000,
        flush: NEVER,
        most: 7,
    },
    Pieces {
        name: "all at once",
        piece: ROOM,
        flush: NEVER,
        most: ROOM,
    },
    Pieces {
        name: "a flush in the middle",
        piece: 65_536,
        flush: 655_360,
        most: ROOM,
    },
    Pieces {
        name: "a flush of a slow writer",
        piece: 600_000,
        flush: 600_000,
        most: 64,
    },
];

/// Writes octets in pieces of `piece`, with a flush behind the piece that ends with the first `flush` octets.
fn write_pieces<W: Write>(
    writer: &mut W,
    octets: &[u8],
    piece: usize,
    flush: usize,
) -> io::Result<()> {
    let mut count = 0usize;
    for piece in octets.chunks(piece.max(1)) {
        writer.write_all(piece)?;
        count = count.saturating_add(piece.len());
        if count == flush {
            writer.flush()?;
        }
    }
    Ok(())
}

/// Whether a slow writer gets all octets, each once and in order, by a thread of its own or without one.
fn keeps_pieces<R: System>(rt: &R, case: &Pieces, threaded: bool) -> io::Result<bool> {
    let alloc = rt.alloc();
    let due = octets(alloc, MANY)?;
    let inner = Narrow::new(alloc, ROOM, case.most, NEVER, BrokenPipe)?;
    let mut writer = if threaded {
        WriteBehind::start(*rt, alloc, inner)
    } else {
        WriteBehind::new(*rt, inner)
    };
    write_pieces(&mut writer, due.as_slice(), case.piece, case.flush)?;
    Ok(writer.into_inner()?.octets.as_slice() == due.as_slice())
}

/// Whether a list gets all octets.
fn fills<R: System>(rt: &R, case: &Pieces) -> io::Result<bool> {
    let alloc = rt.alloc();
    let due = octets(alloc, MANY)?;
    let mut writer = WriteBehind::start(*rt, alloc, Vec::new(alloc));
    write_pieces(&mut writer, due.as_slice(), case.piece, case.flush)?;
    Ok(writer.into_inner()?.as_slice() == due.as_slice())
}

#[test]
fn octets_behind(rt: HostRuntime) -> Result<(), Fail> {
    for case in PIECES {
        assert!(rt; keeps_pieces(&rt, case, true)?, "{}", case.name);
        assert!(rt;
            keeps_pieces(&rt, case, false)?,
            "{}, without a thread",
            case.name
        );
        assert!(rt; fills(&rt, case)?, "{}, to a list", case.name);
    }
    Ok(())
}

/// Whether behind each flush all octets have left, also behind a second one.
fn leaves<R: System>(rt: &R) -> io::Result<bool> {
    let alloc = rt.alloc();
    let due = octets(alloc, MANY)?;
    let seen = Shared::new(*rt, alloc, ROOM, NEVER)?;
    let mut writer = WriteBehind::start(*rt, alloc, seen.same()?);
    let mut count = 0usize;
    for piece in due.as_slice().chunks(PIECE) {
        writer.write_all(piece)?;
        writer.flush()?;
        count = count.saturating_add(piece.len());
        if !seen.took_front(due.as_slice(), count) {
            return Ok(false);
        }
    }
    Ok(true)
}

#[test]
fn flush_behind(rt: HostRuntime) -> Result<(), Fail> {
    assert!(rt; leaves(&rt)?);
    Ok(())
}

/// A writer that takes at most `most` octets a call and fails after `calls` calls, where `count` octets are written in pieces of
/// `piece`.
#[derive(Clone, Copy)]
struct Failing {
    name: &'static str,
    count: u32,
    piece: usize,
    most: usize,
    calls: usize,
}

const FAILING: &[Failing] = &[
    Failing {
        name: "at the first call",
        count: 1,
        piece: 1,
        most: ROOM,
        calls: 0,
    },
    Failing {
        name: "inside a piece",
        count: 3000,
        piece: 1000,
        most: 7,
        calls: 200,
    },
    Failing {
        name: "while octets come",
        count: MANY,
        piece: 1,
        most: 1,
        calls: 70_000,
    },
    Failing {
        name: "while a write waits for room",
        count: MANY,
        piece: 1_300_000,
        most: 1,
        calls: 300_000,
    },
];

/// Whether this is the writer's failure.
fn is_broken<T>(answer: &io::Result<T>) -> bool {
    match answer {
        Ok(_) => false,
        Err(why) => why.kind() == BrokenPipe,
    }
}

/// Whether the failure is answered by a write or by the flush, and by each call from then on; and what was taken before stays.
fn answers_failure<R: System>(rt: &R, case: &Failing) -> Result<bool, AllocError> {
    let alloc = rt.alloc();
    let due = octets(alloc, case.count)?;
    let seen = Shared::new(*rt, alloc, case.most, case.calls)?;
    let mut writer = WriteBehind::start(*rt, alloc, seen.same()?);
    let written = write_pieces(&mut writer, due.as_slice(), case.piece, NEVER);
    let flushed = writer.flush();
    Ok(
        is_broken(&flushed)
            && (written.is_ok() || is_broken(&written))
            && is_broken(&writer.write(b"0"))
            && is_broken(&writer.write(b""))
            && is_broken(&writer.flush())
            && is_broken(&writer.into_inner())
            && seen.took_front(due.as_slice(), case.most.saturating_mul(case.calls)),
    )
}

#[test]
fn failure_behind(rt: HostRuntime) -> Result<(), Fail> {
    for case in FAILING {
        let answered = answers_failure(&rt, case)? || answers_failure(&rt, case)?;
        assert!(rt; answered, "{}", case.name);
    }
    Ok(())
}

/// The entry of this number: by turns a record that is withheld, and one of which a field is removed.
fn entry(alloc: Global, number: u32) -> Result<AuditEntry, AllocError> {
    let what = if number % 2 == 0 {
        What::Withheld {
            rule: number,
            reason: Reason::Rule,
        }
    } else {
        let mut fields = Vec::new(alloc);
        fields.push(RemovedField {
            place: 5,
            rule: number,
        })?;
        What::Removed {
            fields: RemovedFields::from_vec(alloc, fields)?,
        }
    };
    Ok(AuditEntry {
        position: 3,
        index: number,
        sub: 1,
        what,
    })
}

/// Its line.
fn line(alloc: Global, number: u32) -> Result<String, AllocError> {
    if number % 2 == 0 {
        format!(in alloc; "3 {number} 1 withheld {number} rule\n")
    } else {
        format!(in alloc; "3 {number} 1 removed 5:{number}\n")
    }
}

/// The lines of the entries before that of the number `end`.
fn lines(alloc: Global, end: u32) -> Result<Vec<u8>, AllocError> {
    let mut text = Vec::new(alloc);
    for number in 0..end {
        text.extend_from_slice(line(alloc, number)?.as_bytes())?;
    }
    Ok(text)
}

/// Entries up to the number `end`, in lists of `list`, whose audit is on a writer that takes at most `most` octets a call.
#[derive(Clone, Copy)]
struct Lists {
    name: &'static str,
    list: usize,
    end: u32,
    most: usize,
}

const LISTS: &[Lists] = &[
    Lists {
        name: "none",
        list: 1,
        end: 0,
        most: ROOM,
    },
    Lists {
        name: "one",
        list: 1,
        end: 1,
        most: ROOM,
    },
    Lists {
        name: "fewer than are handed over at once",
        list: 10,
        end: 1000,
        most: ROOM,
    },
    Lists {
        name: "as many as are handed over at once",
        list: 512,
        end: 1024,
        most: ROOM,
    },
    Lists {
        name: "one by one",
        list: 1,
        end: 2500,
        most: ROOM,
    },
    Lists {
        name: "more than may wait, to a slow writer",
        list: 700,
        end: 20_000,
        most: 3,
    },
    Lists {
        name: "all in one list",
        list: 20_000,
        end: 20_000,
        most: ROOM,
    },
];

/// The entries before that of the number `end`, in lists of `list` and one of the rest, which may be empty.
fn entry_lists(alloc: Global, list: usize, end: u32) -> Result<Vec<Vec<AuditEntry>>, AllocError> {
    let mut all = Vec::new(alloc);
    let mut next = Vec::new(alloc);
    for number in 0..end {
        next.push(entry(alloc, number)?)?;
        if next.len() >= list {
            all.push(mem::replace(&mut next, Vec::new(alloc)))?;
        }
    }
    all.push(next)?;
    Ok(all)
}

/// Writes the entries of all lists.
fn write_lists<A: AuditSink>(
    alloc: Global,
    audit: &mut A,
    lists: Vec<Vec<AuditEntry>>,
) -> Result<(), Fault> {
    for list in lists {
        audit.write_entries(alloc, list)?;
    }
    Ok(())
}

/// Writes the entry of this number, and sees that its line leaves.
fn write_one<A: AuditSink>(
    alloc: Global,
    audit: &mut A,
    number: u32,
) -> Result<(Result<(), Fault>, Result<(), Failed>), AllocError> {
    let mut list = Vec::new(alloc);
    list.push(entry(alloc, number)?)?;
    let written = audit.write_entries(alloc, list);
    Ok((written, audit.flush_lines()))
}

/// Whether behind a flush the lines of all entries have left, and behind a second one that of one more.
fn records<R: System>(rt: &R, case: &Lists) -> Result<bool, AllocError> {
    let alloc = rt.alloc();
    let seen = Shared::new(*rt, alloc, case.most, NEVER)?;
    let mut audit = AuditBehind::start(*rt, alloc, Device::new(seen.same()?));
    let written = write_lists(alloc, &mut audit, entry_lists(alloc, case.list, case.end)?);
    let flushed = audit.flush_lines();
    let first = seen.took(lines(alloc, case.end)?.as_slice());
    let one = write_one(alloc, &mut audit, case.end)?;
    let second = seen.took(lines(alloc, case.end.saturating_add(1))?.as_slice());
    Ok(
        written.is_ok()
            && flushed.is_ok()
            && first
            && one == (Ok(()), Ok(()))
            && second
            && audit.failure().is_none(),
    )
}

#[test]
fn lines_behind(rt: HostRuntime) -> Result<(), Fail> {
    for case in LISTS {
        let recorded = records(&rt, case)? || records(&rt, case)?;
        assert!(rt; recorded, "{}", case.name);
    }
    Ok(())
}

/// Entries up to the number `end`, in lists of `list`, whose audit is on a writer that takes an octet a call and fails after `calls`
/// calls.
#[derive(Clone, Copy)]
struct Losing {
    name: &'static str,
    list: usize,
    end: u32,
    calls: usize,
}

const LOSING: &[Losing] = &[
    Losing {
        name: "at the first call",
        list: 1,
        end: 1,
        calls: 0,
    },
    Losing {
        name: "inside a line, at the flush",
        list: 10,
        end: 100,
        calls: 1001,
    },
    Losing {
        name: "while entries come",
        list: 1,
        end: 20_000,
        calls: 100_000,
    },
    Losing {
        name: "while entries wait for room",
        list: 1024,
        end: 20_000,
        calls: 30_000,
    },
];

/// Whether the failure is answered by a write or by the flush, and by each call from then on; and the lines that were taken before
/// stay.
fn audit_answers<R: System>(rt: &R, case: &Losing) -> Result<bool, AllocError> {
    let alloc = rt.alloc();
    let due = lines(alloc, case.end)?;
    let seen = Shared::new(*rt, alloc, 1, case.calls)?;
    let mut audit = AuditBehind::start(*rt, alloc, Device::new(seen.same()?));
    let written = write_lists(alloc, &mut audit, entry_lists(alloc, case.list, case.end)?);
    let flushed = audit.flush_lines();
    let is_named = match audit.failure() {
        Some(why) => why.kind() == BrokenPipe,
        None => false,
    };
    let one = write_one(alloc, &mut audit, case.end)?;
    Ok(
        (written == Ok(()) || written == Err(Fault::AuditWrite))
            && flushed == Err(Failed)
            && is_named
            && one == (Err(Fault::AuditWrite), Err(Failed))
            && audit.failure().is_some()
            && seen.took_front(due.as_slice(), case.calls),
    )
}

#[test]
fn failed_lines_behind(rt: HostRuntime) -> Result<(), Fail> {
    for case in LOSING {
        let answered = audit_answers(&rt, case)? || audit_answers(&rt, case)?;
        assert!(rt; answered, "{}", case.name);
    }
    Ok(())
}

/// A buffer before a writer that fails at its first call.
fn buffer<R: Wait + Copy>(rt: R, alloc: Global) -> io::Result<BufWriter<Shared<R>>> {
    let inner = Shared::new(rt, alloc, ROOM, 0)?;
    BufWriter::with_capacity(alloc, BUFFER, inner)
}

/// Whether a flush answers that the buffer's octets can't leave, when a thread has written them to the buffer.
fn answers_buffer<R: System>(rt: &R) -> io::Result<bool> {
    let alloc = rt.alloc();
    let mut writer = WriteBehind::start(*rt, alloc, buffer(*rt, alloc)?);
    writer.write_all(b"0")?;
    Ok(is_broken(&writer.flush()))
}

/// Whether it answers that of lines.
fn audit_answers_buffer<R: System>(rt: &R) -> io::Result<bool> {
    let alloc = rt.alloc();
    let mut audit = AuditBehind::start(*rt, alloc, Device::new(buffer(*rt, alloc)?));
    let one = write_one(alloc, &mut audit, 0)?;
    Ok(one == (Ok(()), Err(Failed)) && audit.failure().is_some())
}

#[test]
fn buffer_behind(rt: HostRuntime) -> Result<(), Fail> {
    assert!(rt; answers_buffer(&rt)?, "octets");
    let audited = audit_answers_buffer(&rt)? || audit_answers_buffer(&rt)?;
    assert!(rt; audited, "an audit");
    Ok(())
}
