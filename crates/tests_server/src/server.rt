//! What a connection tells and asks its server, noted.
use admin_text::Topic;
use mediator_connections::{Control, Patience, Reception};
use mediator_state::Receipt;
use shared_mediator::KeptEntry;
use std::alloc::{AllocError, Global};
use std::cell::Cell;

/// A server that waits for nothing, and notes what it's told: of the messages of a stream which, and how often to stop.
#[derive(Drop)]
pub(crate) struct Told<'a> {
    alloc: Global,
    stream: &'a [u8],
    /// Where the next message of the stream begins.
    place: Cell<usize>,
    messages: Cell<u64>,
    /// Whether each message had the octets that its length says.
    are_whole: Cell<bool>,
    stops: Cell<u64>,
    /// How many calls of an administrator were accepted.
    accepted: Cell<u64>,
}

impl<'a> Told<'a> {
    /// Nothing, of this stream.
    pub(crate) fn nothing(alloc: Global, stream: &'a [u8]) -> Told<'a> {
        Told {
            alloc,
            stream,
            place: Cell::new(0),
            messages: Cell::new(0),
            are_whole: Cell::new(true),
            stops: Cell::new(0),
            accepted: Cell::new(0),
        }
    }

    /// How many messages were accepted, as long as their octets are those of the stream's messages, in order.
    pub(crate) fn messages(&self) -> Option<u64> {
        if self.are_whole.get() {
            Some(self.messages.get())
        } else {
            None
        }
    }

    /// How many calls of an administrator were accepted.
    pub(crate) fn accepted(&self) -> u64 {
        self.accepted.get()
    }

    /// How often the run was to end.
    pub(crate) fn stops(&self) -> u64 {
        self.stops.get()
    }

    /// The length of the stream's next message, as it says.
    fn next_length(&self) -> Option<usize> {
        let rest = self.stream.get(self.place.get()..)?;
        let (high, low) = (rest.get(2)?, rest.get(3)?);
        Some(usize::from(*high) * 256 + usize::from(*low))
    }
}

impl Patience for Told<'_> {
    fn has_any(&self) -> bool {
        false
    }

    fn wait(&self, _waits: u64) -> bool {
        false
    }
}

impl Control for Told<'_> {
    fn stop(&self) {
        self.stops.set(self.stops.get().saturating_add(1));
    }

    fn accept(&self, _receipt: &KeptEntry) {
        self.accepted.set(self.accepted.get().saturating_add(1));
    }

    fn tell(&self, topic: Topic, receipts: &[KeptEntry]) -> Result<Vec<u8>, AllocError> {
        let page: &[u8] = match (topic, receipts.len()) {
            (Topic::Run, 2) => b"run\n",
            (Topic::Run, 3) => b"run behind a call\n",
            (Topic::Policy, _) => b"policy 1\n\n",
            (Topic::Help, _) => b"",
            _ => return Err(AllocError),
        };
        Vec::from_slice(self.alloc, page)
    }
}

impl Reception for Told<'_> {
    fn accept(&self, _receipt: &Receipt, octets: usize) {
        if self.next_length() != Some(octets) {
            self.are_whole.set(false);
        }
        self.place.set(self.place.get().saturating_add(octets));
        self.messages.set(self.messages.get().saturating_add(1));
    }
}
