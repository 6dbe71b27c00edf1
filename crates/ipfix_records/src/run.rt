//! Runs: records of one template.
ghost use Rattle.std.specs.Prelude.{◌≡◌, ◌==◌, ◌-◌, ◌<◌, ◌≤◌, ◌++◌, [], ◌∷◌, length, take, drop, slice_index, slice_index_or, IfOk, OnOk};
ghost use Rattle.std.specs.Arc.{arc_value};
ghost use Rattle.std.specs.List.{AllByRecursion, concat};
ghost use Rattle.ipfix_records.specs.Pieces.{pieces, AreEnds};

use bytes::Bytes;
use ipfix_template::{Record, RecordView, Template};
use std::alloc::{AllocError, Global};
use std::marker::Model;
use std::sync::Arc;

/// Data Records of one template, as the octets of their values, one after another (RFC 7011, sections 3.3.1 and
/// 3.4.3). Its type keeps of each what [`Record`] keeps. Contracts see the template and the text of each record.
#[derive(Drop)]
pub struct Run {
    template: Arc<Template>,
    texts: Arc<RunTexts>,
}

/// The octets of records, one after another, and where each ends in them. Copies of a run share them.
#[derive(Drop)]
pub struct RunTexts {
    /// The octets of all records.
    pub octets: Bytes,
    /// Where each record ends in the octets, counted from the first of all.
    pub ends: Vec<u32>,
}

impl Model for Run {
    ghost use Rattle.std.specs.Prelude.{◌≡◌, length};
    ghost use Rattle.std.specs.List.{AllByRecursion};
    ghost use Rattle.std.specs.Arc.{arc_value};
    ghost use Rattle.ipfix_template.specs.DataRecord.{IsKept};
    ghost use Rattle.ipfix_records.specs.Pieces.{pieces, AreEnds};
    ghost use Rattle.ipfix_records.specs.Runs.{RunOf};

    ghost Value = { RunOf };

    ghost view = { λ r. record { template = arc_value r.template; texts = pieces (arc_value r.texts).octets 0 (arc_value r.texts).ends.items } };

    ghost invariant = { λ r. AreEnds 0 (arc_value r.texts).ends.items (length (arc_value r.texts).octets)
        × AllByRecursion (IsKept (arc_value r.template))
        (pieces (arc_value r.texts).octets 0 (arc_value r.texts).ends.items) };
}

impl Run {
    ghost use Rattle.ipfix_template.specs.DataRecord.{IsKept, kept_record};
    ghost use Rattle.ipfix_template.specs.Values.{record_text};
    ghost use Rattle.ipfix_records.specs.Runs.{IsKeptRun, run_records};

    /// The records of `template` that stand in `octets`, one after another. `ends` says for each where it ends,
    /// counted from the first octet of all. Nothing is copied; what copies share is in memory from `alloc`.
    ///
    /// # Errors
    /// Want of memory.
    pub fn new(
        alloc: Global,
        template: Arc<Template>,
        octets: Bytes,
        ends: Vec<u32>,
    ) -> Result<Run, AllocError>
        requires ends { AreEnds 0 ends.items (length octets) }
        requires kept { AllByRecursion (IsKept (arc_value template)) (pieces octets 0 ends.items) }
        ensures { IfOk result (λ run. run
            ≡ record { template = arc_value template; texts = pieces octets 0 ends.items }) }
    {
        let texts = Arc::new(alloc, RunTexts { octets, ends })?;
        Ok(Run { template, texts })
    }

    /// The run of the record `single` alone. Its octets are not copied; the list of ends is in
    /// memory from `alloc`.
    ///
    /// # Errors
    /// Want of memory for the list of ends.
    pub fn of_record(alloc: Global, single: Record) -> Result<Run, AllocError>
        ensures run { IfOk result (λ run. run ≡ record {
          template = single.template;
          texts = record_text single.template.fields single.values ∷ [];
        }) }
        ensures records { IfOk result (λ run. run_records run ≡ single ∷ []) }
    {
        let end = single.octets() as u32;
        let mut ends = Vec::with_capacity(alloc, 1)?;
        ends.push_reserved(end);
        let (template, octets) = single.into_parts();
        Run::new(alloc, template, octets, ends)
    }

    /// How many records there are.
    #[tactic(auto, using(crate::proofs::PieceLaws::length_pieces))]
    pub fn len(&self) -> usize
        ensures value { result ≡ length self.now.texts }
        ensures kept { IsKeptRun self.now }
    {
        self.texts.ends.len()
    }

    /// Whether there is no record.
    #[tactic(auto, using(crate::proofs::PieceLaws::length_pieces))]
    pub fn is_empty(&self) -> bool
        ensures value { result ≡ (length self.now.texts == 0) }
        ensures kept { IsKeptRun self.now }
    {
        self.texts.ends.is_empty()
    }

    /// The template of all records of the run.
    pub fn template(&self) -> &Template
        ensures value { result.now ≡ self.now.template }
        ensures kept { IsKeptRun self.now }
    {
        &self.template
    }

    /// The template, as it is shared with records.
    pub fn shared_template(&self) -> &Arc<Template>
        ensures value { arc_value result.now ≡ self.now.template }
        ensures kept { IsKeptRun self.now }
    {
        &self.template
    }

    /// The octets of all records, one after another.
    #[tactic(auto, using(crate::proofs::PieceLaws::whole_pieces))]
    pub fn as_octets(&self) -> &Bytes
        ensures value { result.now ≡ concat self.now.texts }
        ensures kept { IsKeptRun self.now }
    {
        &self.texts.octets
    }

    /// Where the first `count` records end, counted from the first octet of all. It takes no longer
    /// for many records than for few.
    pub fn end(&self, count: usize) -> usize
        requires { count ≤ length self.now.texts }
        ensures value { result ≡ length (concat (take count self.now.texts)) }
        ensures within { result ≤ length (concat self.now.texts) }
    {
        end_of(&self.texts.ends, count)
    }

    /// The octets of the record at `index`, counted from 0.
    pub fn text(&self, index: usize) -> &[u8]
        requires { index < length self.now.texts }
        ensures value { result.now ≡ slice_index_or self.now.texts index [] }
        ensures kept { IsKept self.now.template result.now }
    {
        let (start, end) = place_of(&self.texts.octets, &self.texts.ends, index);
        &self.texts.octets[start..end]
    }

    /// The record at `index`, counted from 0. Its octets are a part of the run's, and not copied.
    ///
    /// # Errors
    /// Want of memory.
    pub fn record(&self, index: usize) -> Result<Record, AllocError>
        requires { index < length self.now.texts }
        ensures { IfOk result
            (λ r. r ≡ kept_record self.now.template (slice_index_or self.now.texts index [])) }
    {
        self.view(index).to_record()
    }

    /// The record at `index`, counted from 0, where it stands. It takes no memory.
    pub fn view(&self, index: usize) -> RecordView<'_>
        requires { index < length self.now.texts }
        ensures { result ≡ kept_record self.now.template (slice_index_or self.now.texts index []) }
    {
        let (start, end) = place_of(&self.texts.octets, &self.texts.ends, index);
        RecordView::new(&self.template, &self.texts.octets, start, end)
    }

    /// Puts the records behind those of `list`, in their order. Each is cut out, and not copied.
    ///
    /// # Errors
    /// Want of memory, and then some of the records may stand in the list.
    pub fn append_to(&self, list: &mut Vec<Record>) -> Result<(), AllocError>
        ensures { OnOk result (list.new.items ≡ list.old.items ++ run_records self.now) }
    {
        for index in 0..self.len() {
            list.push(self.record(index)?)?;
        }
        Ok(())
    }

    /// The template, and the octets of all records with where each ends in them. Nothing is copied.
    #[tactic(auto, using(crate::proofs::PieceLaws::whole_pieces))]
    pub fn into_parts(self) -> (Arc<Template>, Arc<RunTexts>)
        ensures template { arc_value result.0 ≡ self.template }
        ensures texts { pieces (arc_value result.1).octets 0 (arc_value result.1).ends.items ≡ self.texts }
        // The octets are those of the records, and no others.
        ensures octets { (arc_value result.1).octets ≡ concat self.texts }
        ensures ends { AreEnds 0 (arc_value result.1).ends.items (length (arc_value result.1).octets) }
        ensures kept { IsKeptRun self }
    {
        let Run { template, texts } = self;
        (template, texts)
    }
}

impl Clone for Run {
    ghost use Rattle.std.specs.Prelude.{◌≡◌};

    ghost is_clone = { λ r copy. copy ≡ r };

    /// One more owner of the template and of the texts. It takes no memory.
    fn clone(&self) -> Result<Run, AllocError> {
        Ok(Run {
            template: self.template.clone()?,
            texts: self.texts.clone()?,
        })
    }
}

/// Where the text at this index starts in the octets, and where it ends.
fn place_of(octets: &[u8], ends: &[u32], index: usize) -> (usize, usize)
    requires ends { AreEnds 0 ends.now (length octets.now) }
    requires index { index < length ends.now }
    ensures within { (result.0 ≤ result.1) × (result.1 ≤ length octets.now) }
    ensures shown { take (result.1 - result.0) (drop result.0 octets.now)
        ≡ slice_index_or (pieces octets.now 0 ends.now) index [] }
{
    (end_of(ends, index), end_of(ends, index + 1))
}

/// Where the first `count` texts end.
fn end_of(ends: &[u32], count: usize) -> usize
    requires { count ≤ length ends.now }
    ensures { result ≡ slice_index (0 ∷ ends.now) count }
{
    if count == 0 {
        0
    } else {
        ends[count - 1] as usize
    }
}
