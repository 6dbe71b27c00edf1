//! Where a server's notes go: a stream that may be a pipe which nobody reads. A note that would wait there is dropped, and
//! counted, so that no thread of the server waits for a reader of notes.

use jiff::Timestamp;
use log::kv::Source;
use log::span::Spans;
use log::{Line, Log, Metadata, Record};
use mio::unix::SourceFd;
use mio::{Events, Interest, Poll, Token};
use octet_io::{Device, write_all};
use std::alloc::{AllocError, Global};
use std::fmt::{self, Display, Formatter};
use std::io::{self, Write};
use std::net::Net;
use std::os::fd::RawFd;
use std::sync::{Mutex, Wait};
use std::time::{Clock, Duration};

/// The most octets of a note, its line feed among them. A pipe takes this many without waiting, where it takes any.
const LONGEST_NOTE: usize = 4096;

/// What says whether a descriptor takes octets now.
#[derive(Drop)]
struct Gate {
    poll: Poll,
    events: Events<Global>,
    descriptor: RawFd,
}

impl Gate {
    /// The gate of `descriptor`.
    ///
    /// # Errors
    /// The system can't say this of the descriptor, as of a file, where no write waits; or memory ran out.
    fn before(rt: &impl Net, alloc: Global, descriptor: RawFd) -> io::Result<Gate> {
        let events = Events::with_capacity(alloc, 1)?;
        let poll = Poll::new(rt)?;
        poll.registry()
            .register(&mut SourceFd(&descriptor), Token(0), Interest::WRITABLE)?;
        Ok(Gate {
            poll,
            events,
            descriptor,
        })
    }

    /// Whether the descriptor takes [`LONGEST_NOTE`] octets now.
    fn is_open(&mut self) -> bool {
        self.ask().is_ok() && !self.events.is_empty()
    }

    /// Asks the system. To register anew has it say once more what it has said.
    fn ask(&mut self) -> io::Result<()> {
        let mut source = SourceFd(&self.descriptor);
        self.poll
            .registry()
            .reregister(&mut source, Token(0), Interest::WRITABLE)?;
        self.poll.poll(&mut self.events, Some(Duration::ZERO))
    }
}

/// A stream for notes.
#[derive(Drop)]
struct Stream<'e, E> {
    device: &'e mut Device<E>,
    /// None: what is written never waits.
    gate: Option<Gate>,
    /// How many notes were dropped since one was written.
    dropped: u64,
}

impl<E: Write> Stream<'_, E> {
    /// Whether a note can be written without waiting.
    fn is_open(&mut self) -> bool {
        match &mut self.gate {
            Some(gate) => gate.is_open(),
            None => true,
        }
    }

    /// Writes a line, or counts it where that would wait.
    fn note(&mut self, alloc: Global, moment: Moment, line: Result<String, AllocError>) {
        self.tell_dropped(alloc, moment);
        match line {
            Ok(line) if self.dropped == 0 && self.is_open() => self.put(line.as_str()),
            _ => self.dropped = self.dropped.saturating_add(1),
        }
    }

    /// Says how many notes were dropped, where there are any and it doesn't wait.
    fn tell_dropped(&mut self, alloc: Global, moment: Moment) {
        if self.dropped == 0 || !self.is_open() {
            return;
        }
        let dropped = self.dropped;
        if let Ok(line) = format!(in alloc; "{moment}[WARN  ipmd] {dropped} notes dropped") {
            self.put(line.as_str());
            self.dropped = 0;
        }
    }

    /// Writes a line. A longer one than [`LONGEST_NOTE`] is cut, and what can't be written is dropped.
    fn put(&mut self, line: &str) {
        let octets = line.as_bytes();
        let end = octets.len().min(LONGEST_NOTE - 1);
        let _told = write_all(self.device, &octets[..end]);
        let _ended = write_all(self.device, b"\n");
    }
}

/// Where the notes of all threads go, a line each.
#[derive(Drop)]
pub(crate) struct Notes<'r, 'e, R, E> {
    rt: &'r R,
    alloc: Global,
    /// Whether each has the machine's time.
    are_timed: bool,
    stream: Mutex<Stream<'e, E>>,
}

impl<'r, 'e, R: Net + AllocGlobal, E> Notes<'r, 'e, R, E> {
    /// Notes that are written to `device`, whose descriptor is `descriptor`. Where `are_timed` is set, each has the machine's
    /// time before it. `rt` tells the time, and has the lock under which threads note.
    pub(crate) fn over(
        rt: &'r R,
        device: &'e mut Device<E>,
        descriptor: RawFd,
        are_timed: bool,
    ) -> Notes<'r, 'e, R, E> {
        let alloc = rt.alloc();
        let gate = Gate::before(rt, alloc, descriptor).ok();
        Notes {
            rt,
            alloc,
            are_timed,
            stream: Mutex::new(Stream {
                device,
                gate,
                dropped: 0,
            }),
        }
    }
}

impl<R: Clock, E> Notes<'_, '_, R, E> {
    /// What stands before a note now.
    fn moment(&self) -> Moment {
        Moment(if self.are_timed {
            time_of(self.rt)
        } else {
            None
        })
    }
}

/// The machine's time; none where it can't be read.
fn time_of(rt: &impl Clock) -> Option<Timestamp> {
    let since = rt.since_1970().ok()?;
    let milliseconds = i64::try_from(since.as_millis()).ok()?;
    Timestamp::from_millisecond(milliseconds).ok()
}

/// When something is noted: a time as RFC 3339 writes it and a space, or nothing.
#[derive(Clone, Copy)]
struct Moment(Option<Timestamp>);

impl Display for Moment {
    fn fmt<W: fmt::Write>(&self, f: &mut Formatter<W>) -> fmt::Result {
        match self.0 {
            Some(time) => write!(f, "{time:.3} "),
            None => Ok(()),
        }
    }
}

impl<R: Wait + Clock, E: Write> Log for Notes<'_, '_, R, E> {
    fn enabled(&self, _metadata: &Metadata<'_>) -> bool {
        true
    }

    fn log<D: Display, K: Source, S: Spans>(&self, record: &Record<'_, D, K, S>) {
        let (moment, line) = (self.moment(), Line::new(record));
        let line = format!(in self.alloc; "{moment}{line}");
        self.stream.lock(self.rt).note(self.alloc, moment, line);
    }

    /// Says how many notes were dropped, so that no later one need come.
    fn flush(&self) {
        let moment = self.moment();
        self.stream.lock(self.rt).tell_dropped(self.alloc, moment);
    }

    fn target(&self) -> &str {
        ""
    }
}
