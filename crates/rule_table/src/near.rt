//! Which addresses lie near those of one record, so that a record with such addresses has the same keys.
ghost use Rattle.std.specs.Prelude.{◌≡◌, IfSome, true};
ghost use Rattle.sequences.specs.Octets.{be_value};
ghost use Rattle.rule_table.specs.Places.{HasPlace, value_at};
ghost use Rattle.rule_table.specs.declared.place.Place.TheVariants.{Narrow};
ghost use Rattle.rule_table.specs.Near.{HasBoth, IsNear, ShowsBoth};

use crate::classes::{AddressClasses, narrow_number};
use crate::place::lone_narrow;
use crate::places::AddressPlaces;
use crate::span::Span;
use flow_prefix::IPV4_OCTETS;
use ipfix_template::RecordView;

/// Where the lone addresses of a template's records stand, both of IPv4, and the addresses about those of one record
/// that have its classes.
#[derive(Clone, Copy, Debug)]
pub(crate) struct Near {
    /// Where the source stands.
    pub source: usize,
    /// The sources of the record's class.
    pub sources: Span,
    /// Where the destination stands.
    pub destination: usize,
    /// The destinations of the record's class.
    pub destinations: Span,
}

impl Near {
    /// What is near the record `flow_record`, if the records of its template have one address on each side, of IPv4, at
    /// a place that the template fixes. `places` says where.
    pub(crate) fn of(
        classes: &AddressClasses,
        places: &AddressPlaces,
        flow_record: &RecordView<'_>,
    ) -> Option<Near>
        requires { flow_record.now.template ≡ places.now }
        ensures { IfSome result (IsNear classes.now flow_record.now) }
    {
        // What is read of a record has what its type keeps of it.
        let _for_proof = flow_record.template();
        let source = lone_narrow(places.sources())?;
        let destination = lone_narrow(places.destinations())?;
        Some(Near {
            source,
            sources: classes.span_of(address_at(flow_record, source)),
            destination,
            destinations: classes.span_of(address_at(flow_record, destination)),
        })
    }

    /// Whether both addresses of the record `flow_record` are near.
    pub(crate) fn has(&self, flow_record: &RecordView<'_>) -> bool
        requires { HasBoth flow_record.now self.now }
        ensures { result ≡ true → ShowsBoth flow_record.now self.now }
    {
        self.sources.has(address_at(flow_record, self.source))
            && self
                .destinations
                .has(address_at(flow_record, self.destination))
    }
}

/// The address of IPv4 at `from`.
fn address_at(flow_record: &RecordView<'_>, from: usize) -> u32
    requires { HasPlace flow_record.now (Narrow from) }
    ensures { result ≡ be_value (value_at flow_record.now (Narrow from)) }
{
    narrow_number(&flow_record.as_octets()[from..from + IPV4_OCTETS])
}
