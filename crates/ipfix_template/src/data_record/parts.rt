//! What a record is made of, handed out.
ghost use Rattle.std.specs.Prelude.{◌≡◌, ◌≤◌, length};
ghost use Rattle.std.specs.Arc.{arc_value};

use crate::data_record::{RECORD_ROOM, Record};
use crate::template::Template;
use bytes::Bytes;
use std::sync::Arc;

impl Record {
    ghost use Rattle.ipfix_template.specs.DataRecord.{IsSound, IsKept};
    ghost use Rattle.ipfix_template.specs.Values.{record_text};
    ghost use Rattle.ipfix_template.specs.declared.data_record.TheConstants.{RECORD_ROOM};

    /// The template. A record keeps that it passes [`Template::check`].
    pub fn template(&self) -> &Template
        ensures value { result.now ≡ self.now.template }
        ensures sound { IsSound self.now }
    {
        &self.template
    }

    /// The template, as it is shared with other records.
    pub fn shared_template(&self) -> &Arc<Template>
        ensures value { arc_value result.now ≡ self.now.template }
        ensures sound { IsSound self.now }
    {
        &self.template
    }

    /// The octets that [`encode_record`](crate::encode_record) appends: the values, each in its
    /// shortest text, one after another.
    pub fn as_octets(&self) -> &Bytes
        ensures value { result.now ≡ record_text self.now.template.fields self.now.values }
        ensures kept { IsKept self.now.template result.now }
        ensures sound { IsSound self.now }
    {
        &self.octets
    }

    /// The template, and the octets that [`encode_record`](crate::encode_record) appends. Nothing
    /// is copied.
    pub fn into_parts(self) -> (Arc<Template>, Bytes)
        ensures template { arc_value result.0 ≡ self.template }
        ensures octets { result.1 ≡ record_text self.template.fields self.values }
        ensures kept { IsKept self.template result.1 }
        ensures sound { IsSound self }
    {
        let Record { template, octets } = self;
        (template, octets)
    }

    /// How many octets [`encode_record`](crate::encode_record) appends, at most [`RECORD_ROOM`].
    pub fn octets(&self) -> usize
        ensures exact { result ≡ length (record_text self.now.template.fields self.now.values) }
        ensures fits { result ≤ RECORD_ROOM }
    {
        self.octets.len()
    }
}
