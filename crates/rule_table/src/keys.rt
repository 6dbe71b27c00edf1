//! The keys of a record's addresses, by the places that its template gives them.
ghost use Rattle.std.specs.Prelude.{◌≡◌, ◌≤◌, ◌<◌, ◌+◌, ◌*◌, ◌∷◌, [], length, map, slice_index_or, ℕ};
ghost use Rattle.std.specs.List.{All};
ghost use Rattle.std.specs.Arc.{arc_value};
ghost use Rattle.sequences.specs.Octets.{be_value};
ghost use Rattle.ipfix_template.specs.DataRecord.{kept_record};
ghost use Rattle.policy_judge.specs.declared.occurrences.Side.TheVariants.{Source, Destination};
ghost use Rattle.policy_judge.specs.Sides.{is_of};
ghost use Rattle.policy_judge.specs.Occurrences.{values_of};
ghost use Rattle.rule_table.specs.Cuts.{most_cuts};
ghost use Rattle.rule_table.specs.Classes.{class_of, digit_of, class_key};
ghost use Rattle.rule_table.specs.Places.{HasPlace, value_at};
ghost use Rattle.rule_table.specs.declared.place.Place.TheVariants.{Narrow};
ghost use Rattle.rule_table.specs.Near.{HaveSameKeys, HasKeys};
ghost use Rattle.rule_table.specs.Spans.{IsSpan, IsWideSpan, AreSpans};

use crate::classes::{AddressClasses, EMPTY_KEY, narrow_number, wide_number, with_digit};
use crate::near::Near;
use crate::place::{Place, lone_narrow};
use crate::places::AddressPlaces;
use crate::span::{Span, Spans, WideSpan};
use flow_prefix::{IPV4_OCTETS, IPV6_OCTETS};
use ipfix_records::Run;
use ipfix_template::RecordView;
use std::marker::Model;
use std::sync::Arc;

/// The classes of addresses, for records one after another: where the first bits of an address don't say its class, and no cut
/// is between it and the last such address of its side, its class is that one's. Contracts see the cuts.
#[derive(Drop)]
pub struct RecentClasses {
    classes: Arc<AddressClasses>,
    /// In which the last sources lie that were looked up.
    sources: Spans,
    /// In which the last destinations lie that were looked up.
    destinations: Spans,
}

impl Model for RecentClasses {
    ghost use Rattle.std.specs.Prelude.{ℕ, List};
    ghost use Rattle.std.specs.Arc.{arc_value};
    ghost use Rattle.rule_table.specs.Spans.{AreBothSpans};

    ghost Value = { List ℕ };

    ghost view = { λ r. arc_value r.classes };

    ghost invariant = { λ r. AreBothSpans (arc_value r.classes) r.sources r.destinations };
}

impl RecentClasses {
    /// What is known before the first record, with the cuts of `classes`.
    pub fn new(classes: Arc<AddressClasses>) -> RecentClasses
        ensures { result ≡ arc_value classes }
    {
        RecentClasses {
            classes,
            sources: Spans::empty(),
            destinations: Spans::empty(),
        }
    }

    /// The classes, as they were worked out of rules.
    pub fn classes(&self) -> &Arc<AddressClasses>
        ensures { arc_value result.now ≡ self.now }
    {
        &self.classes
    }

    /// The keys of the classes of a record's sources and of its destinations, as
    /// [`AddressClasses::key`] answers them for the record `flow_record`. `places` says where the
    /// addresses of its template's records stand; only these places are looked at.
    pub fn keys(
        &mut self,
        places: &AddressPlaces,
        flow_record: &RecordView<'_>,
    ) -> (Option<u64>, Option<u64>)
        requires same { flow_record.now.template ≡ places.now }
        ensures few { length self.old ≤ most_cuts }
        // Each key is that of the record's addresses of this side, whatever records came before.
        ensures sources { result.0 ≡ class_key self.old (values_of (is_of Source) flow_record.now) }
        ensures destinations { result.1
            ≡ class_key self.old (values_of (is_of Destination) flow_record.now) }
        ensures unchanged { self.new ≡ self.old }
    {
        // What is read of the cuts has what their type keeps of them, as `few` says.
        let _for_proof = self.classes.cuts().len();
        let _for_proof = flow_record.template();
        let (sources, destinations) = (places.sources(), places.destinations());
        // Most records have one address on a side, and most are of IPv4.
        if let (Some(source), Some(destination)) = (
            lone_narrow(sources),
            lone_narrow(destinations),
        ) {
            return (
                narrow_key(
                    &self.classes,
                    &mut self.sources,
                    sources,
                    source,
                    flow_record,
                ),
                narrow_key(
                    &self.classes,
                    &mut self.destinations,
                    destinations,
                    destination,
                    flow_record,
                ),
            );
        }
        let sources = key_at(&self.classes, &mut self.sources, sources, flow_record);
        let destinations = key_at(
            &self.classes,
            &mut self.destinations,
            destinations,
            flow_record,
        );
        (sources, destinations)
    }

    /// How far the record at `from` in `run` and those behind it go on with the same keys, as far as each has one
    /// address on a side, of IPv4, between the same cuts: the place behind the last of them. `places` says where the
    /// addresses of the records stand.
    pub fn same_until(&self, places: &AddressPlaces, run: &Run, from: usize) -> usize
        requires same { run.now.template ≡ places.now }
        requires there { from < length run.now.texts }
        ensures some { from < result }
        ensures within { result ≤ length run.now.texts }
        ensures alike { (i : ℕ) → from ≤ i → i < result → HaveSameKeys self.now
            (kept_record run.now.template (slice_index_or run.now.texts i []))
            (kept_record run.now.template (slice_index_or run.now.texts from [])) }
        // A record without a key of one side is alone.
        ensures known { from + 1 < result → HasKeys self.now
            (kept_record run.now.template (slice_index_or run.now.texts from [])) }
    {
        // A place behind a record's is a number of this type.
        let _for_proof = run.len();
        let first = run.view(from);
        let mut to = from + 1;
        if let Some(near) = Near::of(&self.classes, places, &first) {
            'records: while to < run.len() && near.has(&run.view(to)) {
                to += 1;
            }
        }
        to
    }
}

/// The most digits that a key has room for.
const MOST_DIGITS: usize = 3;

/// The key of the address of IPv4 at `from`, which is the only one of these places.
fn narrow_key(
    classes: &AddressClasses,
    spans: &mut Spans,
    places: &[Place],
    from: usize,
    flow_record: &RecordView<'_>,
) -> Option<u64>
    requires there { All (HasPlace flow_record.now) places.now }
    requires lone { places.now ≡ Narrow from ∷ [] }
    requires spans { AreSpans classes.now spans.old }
    ensures key { result ≡ class_key classes.now (map (value_at flow_record.now) places.now) }
    ensures spans { AreSpans classes.now spans.new }
{
    let address = narrow_number(&flow_record.as_octets()[from..from + IPV4_OCTETS]);
    let digit = narrow_digit(classes, &mut spans.narrow, address);
    with_digit(Some(EMPTY_KEY), digit)
}

/// The key of the values at these places, of which the last ones that were looked up lie in the spans.
fn key_at(
    classes: &AddressClasses,
    spans: &mut Spans,
    places: &[Place],
    flow_record: &RecordView<'_>,
) -> Option<u64>
    requires there { All (HasPlace flow_record.now) places.now }
    requires spans { AreSpans classes.now spans.old }
    ensures key { result ≡ class_key classes.now (map (value_at flow_record.now) places.now) }
    ensures spans { AreSpans classes.now spans.new }
{
    if let [place] = places {
        let digit = digit_at(classes, spans, place, flow_record);
        return with_digit(Some(EMPTY_KEY), digit);
    }
    key_of_several(classes, spans, places, flow_record)
}

/// The key of the values at these places, one after another.
#[inline(never)]
fn key_of_several(
    classes: &AddressClasses,
    spans: &mut Spans,
    places: &[Place],
    flow_record: &RecordView<'_>,
) -> Option<u64>
    requires there { All (HasPlace flow_record.now) places.now }
    requires spans { AreSpans classes.now spans.old }
    ensures key { result ≡ class_key classes.now (map (value_at flow_record.now) places.now) }
    ensures spans { AreSpans classes.now spans.new }
{
    // What is read of the cuts has what their type keeps of them.
    let _for_proof = classes.cuts().len();
    if places.len() > MOST_DIGITS {
        return None;
    }
    let mut key = Some(EMPTY_KEY);
    for place in places {
        key = with_digit(key, digit_at(classes, spans, place, flow_record));
    }
    key
}

/// The digit of the value at a place, as [`AddressClasses::digit`] answers it.
fn digit_at(
    classes: &AddressClasses,
    spans: &mut Spans,
    place: &Place,
    flow_record: &RecordView<'_>,
) -> u16
    requires there { HasPlace flow_record.now place.now }
    requires spans { AreSpans classes.now spans.old }
    ensures digit { result ≡ digit_of classes.now (value_at flow_record.now place.now) }
    ensures spans { AreSpans classes.now spans.new }
{
    match place {
        Place::Narrow(from) => {
            let address = narrow_number(&flow_record.as_octets()[*from..*from + IPV4_OCTETS]);
            narrow_digit(classes, &mut spans.narrow, address)
        }
        Place::Wide(from) => {
            let octets = flow_record.as_octets();
            wide_digit(
                classes,
                &mut spans.wide,
                &octets[*from..*from + IPV6_OCTETS],
            )
        }
        Place::Field(index) => digit_in(classes, spans, *index, flow_record),
    }
}

/// The digit of the value of a field.
// It stands apart, as what is seldom done does, so that what is done for most addresses stays small.
#[inline(never)]
fn digit_in(
    classes: &AddressClasses,
    spans: &mut Spans,
    index: usize,
    flow_record: &RecordView<'_>,
) -> u16
    requires there { index < length flow_record.now.template.fields }
    requires spans { AreSpans classes.now spans.old }
    ensures digit { result ≡ digit_of classes.now (slice_index_or flow_record.now.values index []) }
    ensures spans { AreSpans classes.now spans.new }
{
    digit_by(classes, spans, flow_record.value(index))
}

/// The digit of a value, as [`AddressClasses::digit`] answers it.
#[tactic(auto, unfolding(crate::specs::Classes::digit_of))]
fn digit_by(classes: &AddressClasses, spans: &mut Spans, octets: &[u8]) -> u16
    requires { AreSpans classes.now spans.old }
    ensures digit { result ≡ digit_of classes.now octets.now }
    ensures spans { AreSpans classes.now spans.new }
{
    if octets.len() == IPV4_OCTETS {
        return narrow_digit(classes, &mut spans.narrow, narrow_number(octets));
    }
    if octets.len() == IPV6_OCTETS {
        return wide_digit(classes, &mut spans.wide, octets);
    }
    0
}

/// The digit of an address of IPv4: that which its first bits say; else that of the span where the address is in it. Else the
/// span is that of the address from now on.
fn narrow_digit(classes: &AddressClasses, span: &mut Span, address: u32) -> u16
    requires { IsSpan classes.now span.old }
    ensures digit { result ≡ 2 * class_of classes.now address + 1 }
    ensures span { IsSpan classes.now span.new }
{
    match classes.known_class(address) {
        Some(class) => class * 2 + 1,
        None => class_by(classes, span, address) * 2 + 1,
    }
}

/// The class of an address of IPv4: that of the span where the address is in it. Else the span is
/// that of the address from now on.
#[inline(never)]
fn class_by(classes: &AddressClasses, span: &mut Span, address: u32) -> u16
    requires { IsSpan classes.now span.old }
    ensures class { result ≡ class_of classes.now address }
    ensures few { result ≤ most_cuts }
    ensures span { IsSpan classes.now span.new }
{
    if span.has(address) {
        return span.class;
    }
    *span = classes.span_of(address);
    span.class
}

/// The digit of the address of IPv6 that 16 octets write, as [`narrow_digit`] finds that of one of IPv4.
#[inline(never)]
fn wide_digit(classes: &AddressClasses, span: &mut WideSpan, octets: &[u8]) -> u16
    requires octets { length octets.now ≡ 16 }
    requires span { IsWideSpan classes.now span.old }
    ensures digit { result ≡ 2 * class_of classes.now (be_value octets.now) + 2 }
    ensures span { IsWideSpan classes.now span.new }
{
    let address = wide_number(octets);
    match classes.known_wide_class(address) {
        Some(class) => class * 2 + 2,
        None => wide_class_by(classes, span, address) * 2 + 2,
    }
}

/// The class of an address of IPv6, as [`class_by`] finds that of one of IPv4.
fn wide_class_by(classes: &AddressClasses, span: &mut WideSpan, address: u128) -> u16
    requires { IsWideSpan classes.now span.old }
    ensures class { result ≡ class_of classes.now address }
    ensures few { result ≤ most_cuts }
    ensures span { IsWideSpan classes.now span.new }
{
    if span.has(address) {
        return span.class;
    }
    *span = classes.wide_span_of(address);
    span.class
}
