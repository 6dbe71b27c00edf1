//! What waits in an audit: the trait of [`KeptQueue`](crate::KeptQueue), which keeps the entries, and of
//! [`CountedQueue`](crate::CountedQueue), which counts them alone.
ghost use Rattle.std.specs.Prelude.{◌≡◌, ◌≤◌, ◌<◌, ◌+◌, Bool, [], IsOk, IfOk, OnOk, OnErr};
ghost use Rattle.disclosure_audit.specs.Queue.{Waiting, KeepsOrCounts, AreThere, and_one, and_notes, with_spare, waiting_without, oldest_in};
ghost use Rattle.disclosure_audit.specs.declared.audit.TheConstants.{MOST_ENTRIES};

use crate::entry::AuditEntry;
use crate::notes::Notes;
use std::alloc::AllocError;

/// The entries of an audit that wait to be drained, or their number alone. An [`Audit`](crate::Audit) is generic over
/// it, and refuses the same over each.
pub trait AuditQueue {
    /// Whether the entries are kept. Where they aren't, nobody needs to make them.
    const KEEPS: bool;

    ghost KEEPS: { Bool };

    // What waits, as contracts see it.
    ghost seen: { Self → Waiting };

    /// How many entries wait.
    fn len(&self) -> u32
        ensures { result ≡ (seen self.now).count };

    /// Reserves memory for `more` further pieces, whatever the limit of the audit: an entry, or all notes of a message.
    /// Room that is reserved already counts as part of these, and none of it is given back.
    ///
    /// # Errors
    /// Want of memory, and then nothing has changed.
    fn reserve(&mut self, more: u32) -> Result<(), AllocError>
        ensures waiting { seen self.new ≡ with_spare (seen self.old) (seen self.new).spare }
        ensures kept { (seen self.old).spare ≤ (seen self.new).spare }
        ensures ok { OnOk result (more ≤ (seen self.new).spare) }
        ensures err { OnErr result (self.new ≡ self.old) }
        // Room that is reserved already takes no memory.
        ensures no_memory { more ≤ (seen self.old).spare → IsOk result };

    /// Takes `entry` into the reserved room of one piece, behind those that wait. It takes no memory and can't fail.
    fn push_reserved(&mut self, entry: AuditEntry)
        requires room { (seen self.old).count < MOST_ENTRIES }
        requires reserved { 0 < (seen self.old).spare }
        ensures { seen self.new ≡ and_one (seen self.old) entry };

    /// Takes `notes`, what is kept back of the message at `position`, into the reserved room of one piece. They become
    /// entries in their order, behind those that wait. It takes no memory, can't fail, and takes no more time for many
    /// notes than for few.
    fn push_notes(&mut self, position: u64, notes: Notes)
        requires room { (seen self.old).count + notes.count ≤ MOST_ENTRIES }
        requires reserved { 0 < (seen self.old).spare }
        requires there { AreThere (seen self.old).entries notes }
        ensures { seen self.new ≡ and_notes (seen self.old) position notes };

    /// Drops the oldest `most` entries, or all if there are fewer. Those that are kept are handed out, oldest first.
    ///
    /// # Errors
    /// Want of memory for the list, and then nothing has changed.
    fn drain(&mut self, most: u32) -> Result<Vec<AuditEntry>, AllocError>
        ensures oldest { IfOk result (λ out. out.items ≡ oldest_in most (seen self.old).entries) }
        ensures left { OnOk result (seen self.new ≡ waiting_without most (seen self.old)) }
        ensures err { OnErr result (self.new ≡ self.old) }
        // Nothing to hand out takes no memory.
        ensures none { oldest_in most (seen self.old).entries ≡ [] → IsOk result };

    // The entries are kept or not, and those that are kept are counted.
    ghost counted: { (q : Self) → KeepsOrCounts KEEPS (seen q) };
}
