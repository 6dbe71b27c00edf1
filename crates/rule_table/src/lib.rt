//! The rules of a policy in a table, by which a verdict looks at few of them, however many there are; and the classes of
//! addresses, so that what the rules make of records whose addresses lie alike can be worked out once. It decides as
//! `policy_judge` does, and nothing by itself.
//!
//! The table:
//!
//! - `table`: [`RuleTable`], built of a policy once; `candidates` are looked up once a record.
//! - `candidates`: [`Candidates`], a record with the first of each kind of the rules that apply to it, asked for its verdicts.
//! - `marks`: the marks of a rule, numbers each made of its subscriber and of one of its conditions.
//! - `rarest`: that of a rule's marks that fewest rules have.
//! - `asked`: the marks that are looked up for a record.
//! - `index`: a table's entries, each a mark with a rule's place, in which a mark is found by halving.
//! - `covering`: a record's addresses in order, so that a prefix is held against all of them at once.
//! - `addresses`: a record's addresses as numbers, and the shapes of a policy's prefixes.
//! - `copies`: a table's own rules.
//!
//! A rule has a mark for each of its conditions: the prefix of its sources, that of its destinations, its element, if it is a
//! rule on fields, and its domain, each with its subscriber. It stands under that one which fewest rules have, since then few
//! are found with it; a rule without a condition stands under its subscriber's mark. For a record the marks are looked up of
//! its domain, of the elements of its fields, and of each prefix that one of its addresses is inside, of those
//! lengths that the policy's prefixes have, each with its subscriber and with any. Each mark is looked up once, and where the
//! marks outnumber the rules, all rules are taken instead. Of the rules found it is asked once a record whether they are for
//! the subscriber and the domain, and whether the record's addresses are such as they need. Of those that apply three things
//! are kept: the first on records, the first on fields of any element, and for each element that is named the first on its
//! fields. So a verdict on the record is read off, and one on a field is a look-up of its element.
//!
//! Proved: `RuleTable::build` keeps the policy's rules, in their order; `record_verdict` and `element_verdict` of what
//! `RuleTable::candidates` answers are by these rules those of `policy_judge`, clause for clause. Which rules stand under
//! one mark, and so how fast it is, no clause says: two marks that happen to be one number cost a look at some rules more.
//!
//! The classes of addresses:
//!
//! - `classes`: [`AddressClasses`], built of rules once; `key` is asked for each record.
//! - `places`, `place`: [`AddressPlaces`], built of a template once: where the addresses of its records stand.
//! - `keys`: [`RecentClasses`], the keys of both sides by these places alone, for records one after another.
//! - `near`: which addresses lie between the same cuts as those of one record, so that the records behind it which have
//!   such addresses are seen to have its keys.
//! - `cuts`, `narrow`: the bounds of prefixes, and those among the addresses of IPv4; `heads`: what the first bits of an
//!   address say of its class; `span`, `wide`: the addresses between two cuts.
//! - `laws`: [`same_keys`] and [`key_of_three`], proved over the definitions.
//!
//! The class of an address is where it lies among the bounds of all prefixes that the rules of a policy name. Two addresses
//! of one class are inside the same prefixes, so what the rules make of a record can be worked out once for its template
//! and the classes of its addresses.
//!
//! Proved: `AddressClasses::of_rules` has the bounds of each prefix that the rules name (`HaveCuts`), and `key` is made of
//! the class of each address of a side (`key_of`); `RecentClasses::keys` answers the two of a record whose template is that
//! of the places (`sources`, `destinations`), whatever records came before, and `same_until` goes on only where both keys
//! are those of the first record (`alike`). `same_keys` is what this is for: of values with one key, each of these prefixes
//! has the same ones inside (`inside`), and two records whose sources have one key, and whose destinations too, are covered
//! by the same rules (`covers`). Up to three values have a key, and more have none (`key_of_three`). That there are no cuts
//! but these, and so that classes are few, no clause says.
#![tactic(auto)]

mod addresses;
mod asked;
mod candidates;
mod classes;
mod copies;
mod covering;
mod cuts;
mod heads;
mod index;
mod keys;
mod laws;
mod marks;
mod narrow;
mod near;
mod place;
mod places;
mod rarest;
mod span;
mod table;
mod wide;

pub use candidates::Candidates;
pub use classes::AddressClasses;
pub use keys::RecentClasses;
pub use laws::{key_of_three, same_keys};
pub use places::AddressPlaces;
pub use table::RuleTable;
