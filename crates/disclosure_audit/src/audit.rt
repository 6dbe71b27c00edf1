//! An audit: what was kept back waits in it, until that is drained.
ghost use Rattle.std.specs.Prelude.{◌≡◌, ◌≤◌, ◌<◌, ◌+◌, ◌-◌, ◌^◌, [], ◌∷◌, is_some, IsOk, IfOk, OnOk, OnErr};
ghost use Rattle.disclosure_audit.specs.declared.audit.TheConstants.{MOST_ENTRIES};

use crate::entry::AuditEntry;
use crate::notes::Notes;
use crate::queue::AuditQueue;
use std::alloc::AllocError;
use std::marker::Model;

/// The most entries that an audit may be made for.
pub const MOST_ENTRIES: u32 = 10_000_000;

/// The entries that wait to be drained, up to a limit, and the number of those that were drained. What waits is kept
/// by a [`KeptQueue`](crate::KeptQueue), or counted alone by a [`CountedQueue`](crate::CountedQueue): then the same is
/// refused, and the same numbers are told, of entries that nobody makes or gets.
pub struct Audit<Q: AuditQueue> {
    queue: Q,
    /// How many entries may wait.
    limit: u32,
    /// How many entries were drained.
    drained: u64,
}

impl<Q: AuditQueue + Drop> Drop for Audit<Q> {
    // Written out: a derived one is proved anew in each crate that drops such a value.
    fn drop(self) {
        let Audit {
            queue: _,
            limit: _,
            drained: _,
        } = self;
    }
}

impl<Q: AuditQueue> Model for Audit<Q> {
    ghost use Rattle.disclosure_audit.specs.Queue.{KeptAudit, audit_over};
    ghost use Rattle.disclosure_audit.specs.Kept.{IsConsistentAudit};

    ghost Value = { KeptAudit };

    ghost view = { λ a. audit_over (Q.seen a.queue) a.limit a.drained };

    ghost invariant = { λ a. IsConsistentAudit (Q.seen a.queue) a.limit a.drained };
}

impl<Q: AuditQueue> Audit<Q> {
    ghost use Rattle.disclosure_audit.specs.Queue.{AreThere, most_notes, with_noted, with_notes, oldest, without_oldest, StandsIn, TakesEntries, TakesNotes, DrainsOldest};

    /// An audit over `queue`, in which nothing waits. It may come to hold `limit` entries, 1 to [`MOST_ENTRIES`].
    pub fn new(queue: Q, limit: u32) -> Audit<Q>
        requires none { (Q.seen queue).count ≡ 0 }
        requires least { 1 ≤ limit }
        requires most { limit ≤ MOST_ENTRIES }
        ensures limit { result.limit ≡ limit }
        ensures drained { result.standing.drained ≡ 0 }
        ensures stands { StandsIn result.standing [] }
    {
        Audit {
            queue,
            limit,
            drained: 0,
        }
    }

    /// How many more entries the limit leaves room for.
    pub fn room(&self) -> u32
        ensures value { result + self.now.standing.waiting ≡ self.now.limit }
        ensures limit { self.now.limit ≤ MOST_ENTRIES }
    {
        self.limit - self.queue.len()
    }

    /// How many entries may wait at most.
    pub fn limit(&self) -> u32
        ensures { result ≡ self.now.limit }
    {
        self.limit
    }

    /// How many notes of a message are to be kept for it ([`push_notes`](Audit::push_notes)): as many as entries may
    /// wait, or none where they are counted alone.
    pub fn most_notes(&self) -> u32
        ensures { result ≡ most_notes self.now }
    {
        if Q::KEEPS { self.limit } else { 0 }
    }

    /// How many entries were drained.
    pub fn drained(&self) -> u64
        ensures { result ≡ self.now.standing.drained }
    {
        self.drained
    }

    /// Makes room in memory for `more` further entries, whatever the limit. All notes of a message want the room of one
    /// entry.
    ///
    /// # Errors
    /// Want of memory, and then nothing has changed.
    pub fn reserve(&mut self, more: u32) -> Result<(), AllocError>
        ensures standing { self.new.standing ≡ self.old.standing }
        ensures limit { self.new.limit ≡ self.old.limit }
        ensures kept { self.old.spare ≤ self.new.spare }
        ensures ok { OnOk result (more ≤ self.new.spare) }
        ensures err { OnErr result (self.new ≡ self.old) }
        // Room that is reserved already takes no memory.
        ensures no_memory { more ≤ self.old.spare → IsOk result }
    {
        self.queue.reserve(more)
    }

    /// Takes `entry` into the reserved room, behind those that wait. It takes no memory.
    pub fn push_reserved(&mut self, entry: AuditEntry)
        requires room { self.old.standing.waiting < self.old.limit }
        requires reserved { 0 < self.old.spare }
        requires count { self.old.standing.drained + self.old.standing.waiting + 1 < 2 ^ 64 }
        ensures value { self.new ≡ record {
          standing = with_noted self.old.standing entry;
          limit = self.old.limit;
          spare = self.old.spare - 1;
        } }
        // The list of all entries goes on with this one.
        ensures stands { TakesEntries self.old.standing (entry ∷ []) self.new.standing }
    {
        self.queue.push_reserved(entry);
    }

    /// Takes `notes`, what is kept back of the message at `position` in the history, counted from 0, into the reserved
    /// room of one entry. They become entries in their order, behind those that wait. It takes no memory, and no more
    /// time for many notes than for few. Where entries are kept, so are all of `notes`.
    pub fn push_notes(&mut self, position: u64, notes: Notes)
        requires room { self.old.standing.waiting + notes.count ≤ self.old.limit }
        requires reserved { 0 < self.old.spare }
        requires count { self.old.standing.drained
            + self.old.standing.waiting + notes.count < 2 ^ 64 }
        requires there { AreThere self.old.standing.entries notes }
        ensures value { self.new ≡ record {
          standing = with_notes self.old.standing position notes;
          limit = self.old.limit;
          spare = self.old.spare - 1;
        } }
        // The list of all entries goes on with those of which these are the ones to be kept.
        ensures stands { TakesNotes self.old position notes self.new.standing }
    {
        self.queue.push_notes(position, notes);
    }

    /// Lets the oldest `most` entries, or all if there are fewer, wait no more. Those that are kept are handed out,
    /// oldest first.
    ///
    /// # Errors
    /// Want of memory for the list, and then nothing has changed.
    pub fn drain(&mut self, most: u32) -> Result<Vec<AuditEntry>, AllocError>
        ensures oldest { IfOk result (λ out. out.items ≡ oldest most self.old.standing) }
        ensures left { OnOk result (self.new ≡ record {
          standing = without_oldest most self.old.standing;
          limit = self.old.limit;
          spare = self.old.spare;
        }) }
        // They are the next entries of the list of all entries.
        ensures stands { IfOk result
            (λ out. DrainsOldest self.old.standing most out.items self.new.standing) }
        ensures err { OnErr result (self.new ≡ self.old) }
        // Nothing to hand out takes no memory.
        ensures none { oldest most self.old.standing ≡ [] → IsOk result }
        // Whether entries are kept is said by the queue's type.
        ensures kept { is_some self.old.standing.entries ≡ Q.KEEPS }
    {
        let count = most.min(self.queue.len());
        let out = self.queue.drain(most)?;
        self.drained += u64::from(count);
        Ok(out)
    }
}
