//! A mediator that threads share: one lock, and handles by which exporters offer messages, deliveries pull them and
//! administrators do the rest, each in a thread of its own. The logic is `mediator_calls`'s; this crate locks, calls, counts and
//! lets go.
//!
//! - `shared`: [`SharedMediator`]. `closing`: `SharedMediator::close`, with [`Closed`].
//! - `exporter`, `delivery`, `admin`: [`ExporterHandle`], [`DeliveryHandle`] with [`Waited`], and [`AdminHandle`].
//! - `kept`: [`KeptEntry`], the receipt of a call: the entry that it added, and the position that it was told. `marks`: [`Marks`],
//!   which holds the receipts of each caller against a journal.
//! - `locked`: what lies under the lock, and what each call does there. `ledgers`: [`EntryLedger`] and [`RecordLedger`].
//! - `counted`: [`CountedMediator`], which counts what it takes in and hands out, so that those who called it can add up their
//!   receipts. `handed`: [`Handed`], a message that was handed out, with its number of records.
//! - `fault`: [`Fault`]; the other refusals are [`mediator_state::Fault`]. `fill`: [`Fill`], how full the journal and the
//!   audit are.
//! - `clock`: [`Clock`], which tells the Export Times. `waits`: where deliveries wait.
//! - `laws`: that a full count is told.
//!
//! Proved: whenever the lock is taken, its mediator's state stands for its journal (`mediator_calls`), one book's total is the
//! number of messages, edits, begins and ends of subscriptions and advances of the clock that came since `new`, and the
//! other's is the number of records handed to the subscriptions that have ended and to those that are live (the type that
//! lies under the lock keeps it). Each call under the lock answers and leaves what the mediator's does (`ok`, `unchanged`,
//! `noted`, `err`), and adds to its handle's share just what it added to the mediator (`counts`, `share`). A call that is refused
//! since the journal is full notes that there, and nothing else notes it (`noted`, `counts`).
//!
//! Of each call of a counted mediator: what the mediator's call answers, leaves and refuses (`ok`, `unchanged`, `err`), and
//! what it adds to the counts (`counts`): an accepted message, edit, begin or end of a subscription and advance of the clock is one
//! entry more since the value was made; a pull hands out as many records as stand in its message, and that many are told; what a
//! subscription was handed stays counted when it ends. `handed` is what all subscriptions were handed, those that have ended and
//! those that are live. A pull is refused before that count could come to 2^64, and then alone (`ok`, `err`, and the law
//! `full_count_is_told`).
//!
//! Of a handle's calls (`kept`): `offer` keeps the message, under the handle's session and with its number, at the position
//! of the receipt that it answers; an administrator's edit, subscribe, unsubscribe and advance keep the entry of their own
//! argument with a position. A refusal keeps nothing more (`unchanged`); that of an offer or a pull is one that such a call may
//! have (`refuses`). `pull` keeps a message that is built for its Export Time and target at some place of some list, and lends
//! it; its share rises by the records in that. `pull_some` keeps several, and lends just those (`leaves`); so does
//! `pull_queued`, which lends none, for an Export Time that the clock shows (`pulls`).
//!
//! `close` answers Ok only where each receipt stands in the journal at its position, none from before `new`, no two at one
//! position, each handle's own in their order, and where each entry since `new` that is to have a receipt has one
//! (`receipts`); `accepted` and `handed` are the sums of what exporters and deliveries keep. Where a receipt doesn't, it names
//! the first such one by its handle and its position (`names`).
//!
//! Of receipts: where `mark` answers Ok for each of some lists of receipts, each kept entry stands in the journal at its
//! position, none before the place from which on the marks began, no two at one position, and each list's own in their order
//! (`ok`); where it refuses a list, one of these would not hold with that list behind the others (`err`), and it names the
//! first receipt of the list for which that is so (`first`); `count` is the number of these receipts (`receipts`). So where
//! there are as many receipts as entries that are to have one, each of those has its own (the lemma `complete`). Journal and
//! receipts are this project's own; no RFC speaks of them.
//!
//! No clause can say what lies under a lock at the moment at which a public call takes it, so what a call through a handle
//! answers beyond that is shown by tests. Nothing promises that a thread gets on or that a wait ends. `offer` wakes the
//! deliveries for which something is queued; `offer_silently` leaves that to `wake`.
#![tactic(auto)]

mod admin;
mod clock;
mod closing;
mod counted;
mod delivery;
mod exporter;
mod fault;
mod fill;
mod handed;
mod kept;
mod laws;
mod ledgers;
mod locked;
mod marks;
mod shared;
mod waits;

pub use admin::AdminHandle;
pub use clock::Clock;
pub use closing::Closed;
pub use counted::CountedMediator;
pub use delivery::{DeliveryHandle, Waited};
pub use exporter::ExporterHandle;
pub use fault::Fault;
pub use fill::Fill;
pub use handed::Handed;
pub use kept::KeptEntry;
pub use laws::full_count_is_told;
pub use ledgers::{EntryLedger, RecordLedger};
pub use marks::Marks;
pub use shared::SharedMediator;
