//! The stream of one subscriber.
ghost use Rattle.std.specs.Prelude.{◌≡◌, ◌≤◌, ◌<◌, ◌+◌, ◌*◌, ◌^◌, ◌↔◌, ◌++◌, ℕ, List, [], length, IsTrue, IsFalse, IsNone, IsOk, IfOk, OnOk, OnErr};
ghost use Rattle.std.specs.VecDeque.{deque_capacity};
ghost use Rattle.ipfix_octets.specs.MessageFormat.{least_template_id};
ghost use Rattle.ipfix_template.specs.DataRecord.{DataRecord};
ghost use Rattle.subscriber_stream.specs.declared.limits.TheConstants.{MOST_SHAPES};

#[cfg(test)]
mod tests;

use crate::announcing::announced_octets;
use crate::fitting::fitting;
use crate::limits::StreamLimits;
use crate::message_pieces::MessagePieces;
use crate::room::has_shape_room;
use crate::shape_table::ShapeTable;
use crate::texts::Texts;
use crate::waiting::{Waiting, keep_rest, put_waiting};
use crate::writing::{message_of, pieces_of, put_message};
use bytes::Bytes;
use hash_keys::HashKeys;
use ipfix_octets::message_format::LEAST_TEMPLATE_ID;
use ipfix_records::{Records, Run, Runs};
use std::alloc::{AllocError, Global};
use std::collections::VecDeque;
use std::marker::Model;

/// A subscriber's stream: records are given to it, and messages are pulled from it.
///
/// A template gets the next ID, from 256 on, where the first record of it is given, and is announced
/// directly before that record. The Sequence Number of a message is the number of records handed out
/// before it, modulo 2^32, and its Observation Domain is 0 (RFC 7011, section 3.1).
pub struct Stream {
    alloc: Global,
    limits: StreamLimits,
    shapes: ShapeTable,
    queue: VecDeque<Waiting>,
    waiting: u32,
    handed: u64,
    announced: u32,
    spare: usize,
}

impl Drop for Stream {
    // Written out: a derived one is proved anew in each crate that drops such a value.
    fn drop(self) {
        let Stream {
            alloc: _,
            limits: _,
            shapes: _,
            queue: _,
            waiting: _,
            handed: _,
            announced: _,
            spare: _,
        } = self;
    }
}

impl Model for Stream {
    ghost use Rattle.std.specs.VecDeque.{deque_capacity};
    ghost use Rattle.subscriber_stream.specs.Standing.{KeptStream};
    ghost use Rattle.subscriber_stream.specs.Items.{stream_parts};
    ghost use Rattle.subscriber_stream.specs.Waiting.{items_in};
    ghost use Rattle.subscriber_stream.specs.Steps.{IsConsistent};

    ghost Value = { KeptStream };

    ghost view = { λ s. record { standing = record { shapes = s.shapes.shapes; handed = s.handed; announced = s.announced; waiting = stream_parts s.shapes.shapes (items_in s.queue.items) }; limits = s.limits; spare = s.spare } };

    ghost invariant = { λ s. IsConsistent s.shapes s.queue.items (deque_capacity s.queue) s.limits
        (record { waiting = s.waiting; handed = s.handed; announced = s.announced }) s.spare };
}

impl Stream {
    ghost use Rattle.subscriber_stream.specs.Standing.{at_start, StandsAt, HasStreamRoom, FitsLimits, queue_size};
    ghost use Rattle.subscriber_stream.specs.Calls.{TakesRecords, GivesNext, message_if};
    ghost use Rattle.subscriber_stream.specs.Steps.{after_given, handed_parts};
    ghost use Rattle.ipfix_records.specs.Runs.{run_records, records_of_runs};

    /// A stream that was given no record, and that holds at most what `limits` allow. What it comes
    /// to keep is taken from `alloc`. Its templates are hashed with keys that everybody knows.
    pub fn new(alloc: Global, limits: StreamLimits) -> Stream
        requires { limits.shapes ≤ MOST_SHAPES }
        ensures value { result ≡ record { standing = at_start; limits = limits; spare = 0 } }
        ensures stands { StandsAt result.standing [] 0 }
        // Each ID from 256 to 65,535 is one that a template can have (RFC 7011, section 3.4.1).
        ensures ids { least_template_id + MOST_SHAPES ≡ 2 ^ 16 }
    {
        Stream::hashed(alloc, limits, HashKeys::known())
    }

    /// A stream that was given no record, and that holds at most what `limits` allow. What it comes
    /// to keep is taken from `alloc`. Its templates are hashed with `keys`, so that no exporter can
    /// choose templates that collide where these are secret.
    pub fn hashed(alloc: Global, limits: StreamLimits, keys: HashKeys) -> Stream
        requires { limits.shapes ≤ MOST_SHAPES }
        ensures value { result ≡ record { standing = at_start; limits = limits; spare = 0 } }
        ensures stands { StandsAt result.standing [] 0 }
        ensures ids { least_template_id + MOST_SHAPES ≡ 2 ^ 16 }
    {
        Stream {
            alloc,
            limits,
            shapes: ShapeTable::new(alloc, keys),
            queue: VecDeque::new(alloc),
            waiting: 0,
            handed: 0,
            announced: 0,
            spare: 0,
        }
    }

    /// How many records wait to be handed out.
    pub fn queued(&self) -> u32
        ensures { result ≡ queue_size self.now.standing }
    {
        self.waiting
    }

    /// How many records were handed out.
    pub fn handed(&self) -> u64
        ensures { result ≡ self.now.standing.handed }
    {
        self.handed
    }

    /// How many distinct templates the stream has announced or is to announce.
    pub fn shapes(&self) -> u32
        ensures { result ≡ length self.now.standing.shapes }
    {
        self.shapes.len() as u32
    }

    /// Whether the limits leave room for `records`: for all of them in the queue, and for their
    /// templates among those that the stream knows. It takes no memory.
    pub fn room(&self, records: &Records) -> bool
        ensures room { IsTrue result ↔ HasStreamRoom self.now records.now }
        // That is room behind the list of records that the stream was given.
        ensures exact { (given_before : List DataRecord) (p : ℕ)
            → StandsAt self.now.standing given_before p
            → (IsTrue result ↔ FitsLimits self.now.limits given_before p records.now) }
    {
        self.has_room(records)
    }

    fn has_room(&self, records: &Records) -> bool
        ensures { IsTrue result ↔ HasStreamRoom self.now records.now }
    {
        records.len() <= (self.limits.queue - self.waiting) as usize
            && has_shape_room(&self.shapes, records.runs(), self.limits.shapes)
    }

    /// Whether `records` have no room in the queue until some of what waits is pulled, and have
    /// room then. It takes no memory.
    pub fn is_held_up(&self, records: &Records) -> bool
        ensures { IsTrue result
            ↔ (self.now.limits.queue < queue_size self.now.standing + length records.now)
            × (length records.now ≤ self.now.limits.queue) }
    {
        let (count, most) = (records.len(), self.limits.queue as usize);
        count <= most && self.queued() as usize + count > most
    }

    /// Makes room for `records`, so that to queue them takes no memory.
    ///
    /// # Errors
    /// Want of memory. The records that wait, and the room that was reserved before, stay.
    pub fn reserve(&mut self, records: &Records) -> Result<(), AllocError>
        ensures standing { self.new.standing ≡ self.old.standing }
        ensures limits { self.new.limits ≡ self.old.limits }
        ensures kept { self.old.spare ≤ self.new.spare }
        ensures ok { OnOk result (length records.now ≤ self.new.spare) }
        // Where the room is there already, no memory is taken.
        ensures no_memory { length records.now ≤ self.old.spare → IsOk result }
    {
        let more = records.len();
        if more <= self.spare {
            return Ok(());
        }
        self.shapes.reserve(more)?;
        // Each record may be a run of its own, with an announcement before it.
        self.queue.reserve(2 * more)?;
        self.spare = more;
        Ok(())
    }

    /// Takes `records` into the reserved room, behind those that were given before. A template that
    /// no record before had gets the next ID, and an announcement that waits before its first
    /// record. It takes no memory.
    pub fn push_reserved(&mut self, records: Records)
        requires room { HasStreamRoom self.old records }
        requires reserved { length records ≤ self.old.spare }
        requires count { self.old.standing.handed + queue_size self.old.standing + length records
            < 2 ^ 64 }
        // The list that was given goes on with the records, and the place stays.
        ensures ok { TakesRecords self.old.standing records self.new.standing }
        ensures limits { self.new.limits ≡ self.old.limits }
        ensures spare { self.new.spare + length records ≡ self.old.spare }
    {
        self.push_all(records);
    }

    fn push_all(&mut self, records: Records)
        requires room { HasStreamRoom self.old records }
        requires reserved { length records ≤ self.old.spare }
        requires count { self.old.standing.handed + queue_size self.old.standing + length records
            < 2 ^ 64 }
        ensures { self.new ≡ after_given self.old records }
    {
        match records.into_runs() {
            Runs::Few(Some(only)) => self.push_run(only),
            Runs::Few(None) => {}
            Runs::Many(runs) => self.push_runs(runs),
        }
    }

    fn push_runs(&mut self, runs: Vec<Run>)
        requires room { HasStreamRoom self.old (records_of_runs runs.items) }
        requires reserved { length (records_of_runs runs.items) ≤ self.old.spare }
        requires count { self.old.standing.handed + queue_size self.old.standing
            + length (records_of_runs runs.items) < 2 ^ 64 }
        ensures { self.new ≡ after_given self.old (records_of_runs runs.items) }
    {
        for next in runs {
            self.push_run(next);
        }
    }

    /// Takes the records of a run into the reserved room.
    fn push_run(&mut self, next: Run)
        requires room { HasStreamRoom self.old (run_records next) }
        requires reserved { length next.texts ≤ self.old.spare }
        requires count { self.old.standing.handed + queue_size self.old.standing + length next.texts
            < 2 ^ 64 }
        ensures { self.new ≡ after_given self.old (run_records next) }
    {
        let count = next.len();
        if count == 0 {
            return;
        }
        let (template, texts) = next.into_parts();
        let (place, is_new) = self.shapes.place_reserved(template);
        let id = LEAST_TEMPLATE_ID + place as u16;
        let announced = announced_octets(self.shapes.shape(place), is_new);
        put_waiting(&mut self.queue, id, announced, Texts::new(texts));
        self.waiting += count as u32;
        self.spare -= count;
    }

    /// Hands out the first `count` parts.
    fn hand_out(&mut self, count: usize)
        requires { count ≤ length self.old.standing.waiting }
        ensures { self.new ≡ handed_parts count self.old }
    {
        let mut left = count;
        while left > 0 {
            left -= self.hand_out_front(left);
        }
    }

    /// Hands out the announcement that is the first of the queue, or the first records of the run, at most `most` parts;
    /// and answers how many.
    fn hand_out_front(&mut self, most: usize) -> usize
        requires waiting { 0 < length self.old.standing.waiting }
        requires some { 0 < most }
        // It answers how many parts it took, one at least.
        ensures some { 0 < result }
        ensures few { result ≤ most }
        ensures within { result ≤ length self.old.standing.waiting }
        ensures handed { self.new ≡ handed_parts result self.old }
    {
        match self.queue.pop_front() {
            Some(Waiting::Announce { .. }) => {
                self.announced += 1;
                1
            }
            Some(Waiting::Bring { id, texts }) => {
                let count = texts.len().min(most);
                self.handed += count as u64;
                self.waiting -= count as u32;
                keep_rest(&mut self.queue, id, texts, count);
                count
            }
            None => 0,
        }
    }

    /// Builds the next message (RFC 7011, section 3.1): the longest run of parts whose message is
    /// at most `target` octets long, or the next part alone where even its message is longer. A
    /// part is an announcement or a record. `now` is the message's Export Time, in seconds since
    /// 1970. `None` exactly at the end, where nothing is queued.
    ///
    /// # Errors
    /// Want of memory for the message, and then the stream is as it was.
    ///
    /// # Examples
    ///
    /// The stream is given the record of an exporter's message. Its own first message announces the
    /// template, and brings the record:
    ///
    /// ```rust
    /// use ipfix_session::Session;
    /// use subscriber_stream::{Stream, StreamLimits};
    ///
    /// let message: &[u8] = b"\x00\x0a\x00\x24\x65\x53\xf1\x00\x00\x00\x00\x00\x00\x00\x00\x07\
    ///     \x00\x02\x00\x0c\x01\x00\x00\x01\x00\x01\x00\x04\x01\x00\x00\x08\x00\x00\x05\xdc";
    /// let read = Session::new(alloc).apply(message)?;
    /// let limits = StreamLimits {
    ///     queue: 10,
    ///     shapes: 10,
    /// };
    /// let mut stream = Stream::new(alloc, limits);
    /// stream.reserve(&read.records)?;
    /// assert!(rt; read.records.len() == 1 && stream.room(&read.records));
    /// stream.push_reserved(read.records);
    /// let sent = stream.pull(1_700_000_060, 1400)?.expect(&rt, "a message");
    /// let due: &[u8] = b"\x00\x0a\x00\x24\x65\x53\xf1\x3c\x00\x00\x00\x00\x00\x00\x00\x00\
    ///     \x00\x02\x00\x0c\x01\x00\x00\x01\x00\x01\x00\x04\x01\x00\x00\x08\x00\x00\x05\xdc";
    /// assert!(rt; sent.as_slice() == due);
    /// ```
    pub fn pull(&mut self, now: u32, target: u16) -> Result<Option<Bytes>, AllocError>
        // The message is the one that is built at the place where the stream stands, and the stream then
        // stands after its parts.
        ensures ok { IfOk result (λ m. GivesNext self.old.standing now target m self.new.standing) }
        ensures end { IfOk result (λ m. IsNone m ↔ (queue_size self.old.standing ≡ 0)) }
        // At the end no memory is taken.
        ensures no_memory { queue_size self.old.standing ≡ 0 → IsOk result }
        ensures limits { self.new.limits ≡ self.old.limits }
        ensures spare { self.new.spare ≡ self.old.spare }
        ensures err { OnErr result (self.new ≡ self.old) }
    {
        if self.queue.is_empty() {
            return Ok(None);
        }
        let run = fitting(&self.queue, target);
        let message = message_of(self.alloc, &self.shapes, &self.queue, run, now, self.handed)?;
        self.hand_out(run.parts);
        Ok(Some(message))
    }

    /// Builds the next message as [`pull`](Stream::pull) does with `now` and `target`, in pieces: the
    /// octets of its records are shared with what else has them, and not copied, unless its runs are
    /// many and short.
    ///
    /// # Errors
    /// Want of memory for the list of pieces, and then the stream is as it was.
    pub fn pull_pieces(
        &mut self,
        now: u32,
        target: u16,
    ) -> Result<Option<MessagePieces>, AllocError>
        // The message is the one that is built at the place where the stream stands, and the stream then
        // stands after its parts.
        ensures ok { IfOk result (λ m. GivesNext self.old.standing now target m self.new.standing) }
        ensures end { IfOk result (λ m. IsNone m ↔ (queue_size self.old.standing ≡ 0)) }
        // At the end no memory is taken.
        ensures no_memory { queue_size self.old.standing ≡ 0 → IsOk result }
        ensures limits { self.new.limits ≡ self.old.limits }
        ensures spare { self.new.spare ≡ self.old.spare }
        ensures err { OnErr result (self.new ≡ self.old) }
    {
        if self.queue.is_empty() {
            return Ok(None);
        }
        let run = fitting(&self.queue, target);
        let message = pieces_of(self.alloc, &self.shapes, &self.queue, run, now, self.handed)?;
        self.hand_out(run.parts);
        Ok(Some(message))
    }

    /// Builds the next message as [`pull`](Stream::pull) does with `now` and `target`, and puts its
    /// octets in place of those that stand in `message`: so one list serves many messages. The
    /// answer is whether there is one; at the end `message` stays.
    ///
    /// # Errors
    /// Want of memory for the octets. The stream is as it was then, and `message` may have changed.
    pub fn pull_to(
        &mut self,
        now: u32,
        target: u16,
        message: &mut Vec<u8>,
    ) -> Result<bool, AllocError>
        // The message is the one that is built at the place where the stream stands, and the stream then
        // stands after its parts.
        ensures ok { IfOk result (λ is_there. GivesNext self.old.standing now target
            (message_if is_there message.new.items) self.new.standing) }
        ensures end { IfOk result
            (λ is_there. IsFalse is_there ↔ (queue_size self.old.standing ≡ 0)) }
        // At the end no memory is taken.
        ensures no_memory { queue_size self.old.standing ≡ 0 → IsOk result }
        ensures limits { self.new.limits ≡ self.old.limits }
        ensures spare { self.new.spare ≡ self.old.spare }
        ensures err { OnErr result (self.new ≡ self.old) }
    {
        if self.queue.is_empty() {
            return Ok(false);
        }
        let run = fitting(&self.queue, target);
        message.clear();
        message.reserve(run.octets)?;
        put_message(
            self.alloc,
            &self.shapes,
            &self.queue,
            run,
            now,
            self.handed,
            message,
        )?;
        self.hand_out(run.parts);
        Ok(true)
    }
}
