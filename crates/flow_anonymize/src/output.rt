//! The records that pass.
ghost use Rattle.std.specs.Prelude.{◌≡◌, ◌≤◌, ◌<◌, ◌++◌, ◌∷◌, [], ℕ, length, Some, None, IsSome, IfOk, OnOk};
ghost use Rattle.std.specs.List.{flat_map};
ghost use Rattle.std.specs.Arc.{arc_value};
ghost use Rattle.flow_anonymize.specs.Outcome.{passed};
ghost use Rattle.flow_anonymize.specs.Planning.{planned, IsShowable};
ghost use Rattle.flow_anonymize.specs.Planning.{shown_template};
ghost use Rattle.flow_anonymize.specs.Parts.{record_at, records_between};
ghost use Rattle.flow_anonymize.specs.PlanCache.{passed_by};

use crate::plan::Plan;
use bytes::Bytes;
use ipfix_records::{Records, Run};
use ipfix_template::{Record, RecordView, Template};
use std::alloc::{AllocError, Global};
use std::marker::Model;
use std::mem;
use std::sync::Arc;

/// A run that has come to this many octets is closed, and another is begun.
const LONG_RUN: usize = 65536;

/// Records that pass, one after another, as they are written. Contracts see them, and the template
/// of the run that is being written.
#[derive(Drop)]
pub(crate) struct Output {
    alloc: Global,
    /// The runs that are whole.
    done: Records,
    /// The template of the run that is being written, if one is.
    template: Option<Arc<Template>>,
    /// The octets of its records.
    text: Vec<u8>,
    /// Where each record ends in the text.
    ends: Vec<u32>,
    /// How many octets and how many records the run had that was closed last, for which room is made in the next.
    last: Room,
}

/// How much a run holds.
#[derive(Clone, Copy, Debug)]
struct Room {
    octets: usize,
    records: usize,
}

impl Model for Output {
    ghost use Rattle.std.specs.Prelude.{◌++◌};
    ghost use Rattle.std.specs.Option.{option_map};
    ghost use Rattle.std.specs.Arc.{arc_value};
    ghost use Rattle.ipfix_records.specs.Pieces.{pieces};
    ghost use Rattle.flow_anonymize.specs.Output.{OutputOf, open_records, IsOutput};

    ghost Value = { OutputOf };

    ghost view = { λ o. record { given = o.done ++ open_records (option_map arc_value o.template) (pieces o.text.items 0 o.ends.items); writing = option_map arc_value o.template } };

    ghost invariant = { λ o. IsOutput (option_map arc_value o.template) o.text.items o.ends.items };
}

impl Output {
    /// No record.
    pub(crate) fn new(alloc: Global) -> Output
        ensures { result ≡ record { given = []; writing = None } }
    {
        Output {
            alloc,
            done: Records::new(alloc),
            template: None,
            text: Vec::new(alloc),
            ends: Vec::new(alloc),
            last: Room {
                octets: 0,
                records: 0,
            },
        }
    }

    /// Begins a run of records of this template.
    ///
    /// # Errors
    /// Want of memory.
    pub(crate) fn begin(&mut self, template: Arc<Template>) -> Result<(), AllocError>
        ensures { OnOk result
            (self.new ≡ record { given = self.old.given; writing = Some (arc_value template) }) }
    {
        self.close()?;
        // Room for some records more than the last run had: one is copied whole before it is closed up.
        self.text.reserve(with_more(self.last.octets))?;
        self.ends.reserve(with_more(self.last.records))?;
        self.template = Some(template);
        Ok(())
    }

    /// Closes the run that is being written, if one is.
    ///
    /// # Errors
    /// Want of memory.
    pub(crate) fn close(&mut self) -> Result<(), AllocError>
        ensures { OnOk result (self.new ≡ record { given = self.old.given; writing = None }) }
    {
        let mut text = mem::replace(&mut self.text, Vec::new(self.alloc));
        let mut ends = mem::replace(&mut self.ends, Vec::new(self.alloc));
        // The run may wait for long, so room that was made for a longer one is given back.
        if text.len() < text.capacity() / 2 {
            text.shrink_to_fit();
            ends.shrink_to_fit();
        }
        match self.template.take() {
            Some(template) => {
                self.last = Room {
                    octets: text.len(),
                    records: ends.len(),
                };
                let octets = Bytes::from_vec(text)?;
                let run = Run::new(self.alloc, template, octets, ends)?;
                self.done.push_run(run)
            }
            None => Ok(()),
        }
    }

    /// Adds what passes of a record by a plan, whose records have the template of the run that is being written.
    ///
    /// # Errors
    /// Want of memory.
    pub(crate) fn add(
        &mut self,
        plan: &Plan,
        flow_record: &RecordView<'_>,
    ) -> Result<(), AllocError>
        requires showable { IsShowable plan.now flow_record.now }
        requires begun { IsSome self.old.writing }
        requires same { self.old.writing ≡ shown_template plan.now }
        ensures { OnOk result (self.new ≡ record {
          given = self.old.given ++ passed (planned plan.now flow_record.now.values);
          writing = self.old.writing;
        }) }
    {
        self.renew_long_run()?;
        self.ends.reserve(1)?;
        match put_shown(plan, flow_record, &mut self.text) {
            Ok(end) => {
                self.ends.push_reserved(end);
                Ok(())
            }
            Err(refused) => {
                self.text.clear();
                self.ends.clear();
                Err(refused)
            }
        }
    }

    /// Adds what passes of the records of `run` from the place `from` on that stand before `to`, as [`add`](Output::add)
    /// does.
    ///
    /// # Errors
    /// Want of memory.
    pub(crate) fn add_all(
        &mut self,
        plan: &Plan,
        run: &Run,
        from: usize,
        to: usize,
    ) -> Result<(), AllocError>
        requires order { from ≤ to }
        requires within { to ≤ length run.now.texts }
        requires showable { (i : ℕ) → from ≤ i → i < to → IsShowable plan.now (record_at run.now i) }
        requires begun { IsSome self.old.writing }
        requires same { self.old.writing ≡ shown_template plan.now }
        ensures { OnOk result (self.new ≡ record {
          given = self.old.given ++ flat_map (passed_by plan.now) (records_between from to run.now);
          writing = self.old.writing;
        }) }
    {
        'records: for place in from..to {
            self.add(plan, &run.view(place))?;
        }
        Ok(())
    }

    /// Begins another run of the same template where this one is long.
    ///
    /// # Errors
    /// Want of memory.
    fn renew_long_run(&mut self) -> Result<(), AllocError>
        ensures unchanged { OnOk result (self.new ≡ self.old) }
    {
        if self.text.len() < LONG_RUN {
            return Ok(());
        }
        match &self.template {
            Some(template) => {
                let again = template.clone()?;
                self.begin(again)
            }
            None => Ok(()),
        }
    }

    /// Adds a record of any template.
    ///
    /// # Errors
    /// Want of memory.
    pub(crate) fn push(&mut self, single: Record) -> Result<(), AllocError>
        ensures { OnOk result
            (self.new ≡ record { given = self.old.given ++ single ∷ []; writing = None }) }
    {
        self.close()?;
        self.done.push(self.alloc, single)
    }

    /// Takes all records.
    ///
    /// # Errors
    /// Want of memory.
    pub(crate) fn take_records(&mut self) -> Result<Records, AllocError>
        ensures given { IfOk result (λ all. all ≡ self.old.given) }
        ensures taken { OnOk result (self.new ≡ record { given = []; writing = None }) }
    {
        self.close()?;
        Ok(mem::replace(&mut self.done, Records::new(self.alloc)))
    }

    /// Drops all records, and gives their memory back.
    pub(crate) fn clear(&mut self)
        ensures { self.new ≡ record { given = []; writing = None } }
    {
        self.done = Records::new(self.alloc);
        self.template = None;
        self.text = Vec::new(self.alloc);
        self.ends = Vec::new(self.alloc);
    }
}

/// An eighth more than `count`.
fn with_more(count: usize) -> usize {
    count.saturating_add(count / 8)
}

ghost use Rattle.flow_anonymize.specs.Outcome.{passed_text};

/// Appends what is shown of a record by a plan, and answers where it ends.
///
/// # Errors
/// Want of memory, or of numbers for the end.
fn put_shown(
    plan: &Plan,
    flow_record: &RecordView<'_>,
    text: &mut Vec<u8>,
) -> Result<u32, AllocError>
    requires { IsShowable plan.now flow_record.now }
    ensures text { OnOk result
        (text.new.items ≡ text.old.items ++ passed_text (planned plan.now flow_record.now.values)) }
    ensures end { IfOk result (λ end. end ≡ length text.new.items) }
{
    plan.put_shown(flow_record, text)?;
    u32::try_from(text.len()).map_err(|_| AllocError)
}
