//! The subscriptions of a run, with their names, and whether the collector of each is connected.

use mediator_calls::SubId;
use replay_text::cut_word;
use shared_mediator::{EntryLedger, RecordLedger, SharedMediator};
use std::alloc::{AllocError, Global};
use std::sync::{Mutex, Wait};

/// Whether records can be sent to where a subscription's are to go.
#[derive(Clone, Copy, PartialEq, Eq)]
pub(crate) enum Reach {
    /// The collector is connected.
    Connected,
    /// It isn't, or not now.
    Absent,
    /// There is no collector.
    Nowhere,
}

impl Reach {
    /// The word for it in a page.
    fn word(self) -> &'static str {
        match self {
            Reach::Connected => "connected",
            Reach::Absent => "absent",
            Reach::Nowhere => "none",
        }
    }
}

/// A subscription that has begun.
#[derive(Drop)]
struct Listed {
    sub: SubId,
    name: String,
    reach: Reach,
}

/// The subscriptions that have begun and not ended.
#[derive(Drop)]
pub(crate) struct Roster {
    alloc: Global,
    listed: Mutex<Vec<Listed>>,
}

impl Roster {
    /// No subscription. What it comes to keep is taken from `alloc`.
    pub(crate) fn new(alloc: Global) -> Roster {
        let listed = Vec::new(alloc);
        Roster {
            alloc,
            listed: Mutex::new(listed),
        }
    }

    /// A subscription has begun. Where there is no memory for it, it isn't listed.
    pub(crate) fn begin(&self, rt: &impl Wait, sub: SubId, name: &str, reach: Reach) {
        if let Ok(name) = String::from_str(self.alloc, name) {
            let _listed = self.listed.lock(rt).push(Listed { sub, name, reach });
        }
    }

    /// A subscription has ended.
    pub(crate) fn end(&self, rt: &impl Wait, sub: SubId) {
        self.listed.lock(rt).retain(|one| one.sub != sub);
    }

    /// The collector of a subscription was connected, or has gone.
    pub(crate) fn reach(&self, rt: &impl Wait, sub: SubId, reach: Reach) {
        let mut listed = self.listed.lock(rt);
        if let Some(place) = listed.iter().position(|one| one.sub == sub) {
            if let Some(one) = listed.get_mut(place) {
                one.reach = reach;
            }
        }
    }

    /// A line for each subscription that is live: its number and name, how many records wait and how many were handed out,
    /// whether it was cut, and whether its collector is connected.
    ///
    /// # Errors
    /// Want of memory.
    pub(crate) fn page<E: EntryLedger, H: RecordLedger>(
        &self,
        rt: &impl Wait,
        shared: &SharedMediator<E, H>,
    ) -> Result<Vec<u8>, AllocError> {
        let listed = self.listed.lock(rt);
        let mut page = Vec::new(self.alloc);
        for one in listed.iter() {
            let Ok(status) = shared.status(rt, one.sub) else {
                continue;
            };
            let (sub, name) = (one.sub.0, one.name.as_str());
            let (queued, handed) = (status.queued, status.handed);
            let (cut, reach) = (cut_word(status.cut), one.reach.word());
            let line = format!(in self.alloc; "{sub} {name} {queued} {handed} {cut} {reach}\n")?;
            page.extend_from_slice(line.as_bytes())?;
        }
        Ok(page)
    }
}
