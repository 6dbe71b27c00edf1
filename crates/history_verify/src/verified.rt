//! Verifying a whole journal, and what a legal history says.
ghost use Rattle.std.specs.Prelude.{true, IfOk, IfErr};

use crate::count::SubscriptionCount;
use crate::fault::Fault;
use crate::verifier::Verifier;
use disclosure_audit::AuditEntry;
use event_journal::Journal;
use std::alloc::Global;

/// What a legal history disclosed, and what its audit names.
#[derive(Debug, Drop)]
pub struct Verified {
    /// A count for each subscription that began, in the order of their numbers.
    pub subs: Vec<SubscriptionCount>,
    /// The audit's entries, oldest first; none where they weren't wanted.
    pub audit: Vec<AuditEntry>,
}

ghost use Rattle.history_verify.specs.Answers.{IsVerified, NamesFirst};

/// Verifies `journal`: whether each entry is one that a mediator may have accepted where it stands. Then the answer is
/// how many records were disclosed to each subscription, and what the audit names; in memory from `alloc`.
///
/// # Errors
/// [`Fault::BadHistory`] with the position of the first entry that may not stand where it does; or
/// [`Fault::OutOfMemory`].
///
/// # Examples
///
/// Two journals are read from the octets of their files. The first one is legal, and disclosed one record to acme. The
/// second one is not:
///
/// ```rust
/// use history_verify::{Fault, verify};
/// use journal_files::decode;
///
/// let file: &[u8] =
///     b"IPMJ\x00\x01\x00\x00\x00\x00\x00\x00\x00\x04\x04\x00\x00\x00\x00\x00\x00\x00\x55policy 1\n\
///     rule for * in * from * to * pass\nrule for * in * from * to * element * keep\n\
///     \x05\x00\x00\x00\x00\x00\x00\x00\x01\x04acme\x01\x00\x00\x00\x00\x00\x00\x00\x01\
///     \x03\x00\x00\x00\x00\x00\x00\x00\x01\x00\x00\x00\x00\x00\x00\x00\x00\x00\x00\x00\x24\
///     \x00\x0a\x00\x24\x65\x53\xf1\x00\x00\x00\x00\x00\x00\x00\x00\x07\
///     \x00\x02\x00\x0c\x01\x00\x00\x01\x00\x01\x00\x04\x01\x00\x00\x08\x00\x00\x05\xdc";
/// let journal = decode(alloc, file)?;
/// let verified = verify(alloc, &journal)?;
/// assert!(rt; verified.subs.len() == 1);
/// assert!(rt; matches!(verified.subs.first(), Some(count) if count.disclosed == 1));
/// // A file with one entry: a session ends that never began.
/// let file: &[u8] =
///     b"IPMJ\x00\x01\x00\x00\x00\x00\x00\x00\x00\x01\x02\x00\x00\x00\x00\x00\x00\x00\x01";
/// let journal = decode(alloc, file)?;
/// let fault = verify(alloc, &journal).err();
/// assert!(rt; fault == Some(Fault::BadHistory { position: 0 }));
/// ```
pub fn verify(alloc: Global, journal: &Journal) -> Result<Verified, Fault>
    ensures ok { IfOk result (IsVerified true journal.now.entries) }
    ensures err { IfErr result (λ e. NamesFirst e journal.now.entries) }
{
    let mut verifier = Verifier::new(alloc, true)?;
    'entries: for position in 0..journal.len() {
        match journal.get(position) {
            Some(entry) => verifier.feed(entry)?,
            None => unreachable!(),
        }
    }
    verifier.finish()
}
