//! A template with what its records have in common.
ghost use Rattle.std.specs.Prelude.{◌≡◌, ◌++◌, ℕ, List, length, IfOk};
ghost use Rattle.std.specs.Arc.{arc_value};
ghost use Rattle.ipfix_template.specs.Values.{Splits};
ghost use Rattle.ipfix_template.specs.Shown.{Measures, IsMeasuredBy, IsReach};

use crate::gaps::{first_gap, gaps_behind, walk};
use ipfix_template::{Extent, Template};
use std::alloc::{AllocError, Global};
use std::marker::Model;
use std::sync::Arc;

/// A template, and where the values of its records may stand. Contracts see the template.
#[derive(Drop)]
pub struct Layout {
    template: Arc<Template>,
    /// The octets of the shortest record.
    shortest: usize,
    /// The octets of the fields before the first field of variable length.
    first: usize,
    /// For each field of variable length, the octets of the fields between it and the next one, or the end.
    gaps: Vec<usize>,
}

impl Model for Layout {
    ghost use Rattle.std.specs.Arc.{arc_value};
    ghost use Rattle.ipfix_template.specs.declared.template.Template.{Template};
    ghost use Rattle.ipfix_records.specs.Layout.{IsLaidOut};

    ghost Value = { Template };

    ghost view = { λ l. arc_value l.template };

    ghost invariant = { λ l. IsLaidOut (arc_value l.template) l.shortest l.first l.gaps.items };
}

impl Layout {
    /// The layout of the records of `template`, in memory from `alloc`.
    ///
    /// # Errors
    /// Want of memory.
    pub fn of(alloc: Global, template: Arc<Template>) -> Result<Layout, AllocError>
        ensures { IfOk result (λ layout. layout ≡ arc_value template) }
    {
        let fields = template.fields.as_slice();
        let shortest = template.shortest() as usize;
        let first = first_gap(fields);
        let gaps = gaps_behind(alloc, fields)?;
        Ok(Layout {
            template,
            shortest,
            first,
            gaps,
        })
    }

    /// The template whose records are laid out.
    pub fn template(&self) -> &Template
        ensures { result.now ≡ self.now }
    {
        &self.template
    }

    /// The template, as it is shared with records.
    pub fn shared_template(&self) -> &Arc<Template>
        ensures { arc_value result.now ≡ self.now }
    {
        &self.template
    }

    /// Finds how many octets the record of the template takes at the front of `octets`, and whether
    /// these are what `encode_record` writes for its values. It answers what
    /// [`ipfix_template::measure`](ipfix_template::measure) does, and takes no memory.
    pub fn measure(&self, octets: &[u8]) -> Extent
        // What is found is split by the fields.
        ensures found { IsMeasuredBy self.now.fields octets.now result }
        // What is split so by the fields is found, whatever follows it.
        ensures only { (text rest : List ℕ) (values : List (List ℕ)) → octets.now ≡ text ++ rest
            → Splits self.now.fields text values → IsReach (length text) result }
        ensures exact { Measures self.now octets.now result }
    {
        self.find_extent(octets)
    }

    fn find_extent(&self, octets: &[u8]) -> Extent
        ensures { Measures self.now octets.now result }
    {
        if octets.len() < self.shortest {
            return Extent::Padding;
        }
        match walk(self.first, self.gaps.as_slice(), octets) {
            Some((used, is_shortest)) => Extent::Record { used, is_shortest },
            None => Extent::Overrun,
        }
    }
}
