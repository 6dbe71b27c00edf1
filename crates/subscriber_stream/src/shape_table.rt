//! The templates of a stream's records, each with its place.
ghost use Rattle.std.specs.Prelude.{◌≡◌, ◌≤◌, ◌<◌, ◌+◌, true, [], length, not, IfSome, OnOk, OnErr};
ghost use Rattle.std.specs.Arc.{arc_value};
ghost use Rattle.std.specs.List.{position_or_len};
ghost use Rattle.ipfix_template.specs.Equality.{same_template};
ghost use Rattle.subscriber_stream.specs.Shapes.{is_among, with_shape};

use hash_keys::HashKeys;
use indexmap::IndexSet;
use ipfix_template::Template;
use std::alloc::{AllocError, Global};
use std::marker::Model;
use std::sync::Arc;

/// The distinct templates of a stream's records, in the order of first use. A template's place in it is
/// found by its hash, but for the one that was placed last, which is tried before.
#[derive(Drop)]
pub(crate) struct ShapeTable {
    shapes: IndexSet<Arc<Template>, HashKeys>,
    /// The place that was answered last: the next run most likely has the template that stands there.
    last: usize,
}

impl Model for ShapeTable {
    ghost use Rattle.std.specs.Prelude.{map};
    ghost use Rattle.std.specs.Arc.{arc_value};
    ghost use Rattle.indexmap.specs.IndexSet.{spare};
    ghost use Rattle.subscriber_stream.specs.Table.{Table};

    ghost Value = { Table };

    ghost view = { λ t. record { shapes = map arc_value t.shapes.keys; spare = spare t.shapes } };
}

impl ShapeTable {
    /// A table of no templates; those to come are hashed with these keys.
    pub(crate) fn new(alloc: Global, keys: HashKeys) -> ShapeTable
        ensures { result.shapes ≡ [] }
    {
        ShapeTable {
            shapes: IndexSet::with_hasher(alloc, keys),
            last: 0,
        }
    }

    /// How many templates there are.
    pub(crate) fn len(&self) -> usize
        ensures { result ≡ length self.now.shapes }
    {
        self.shapes.len()
    }

    /// Whether the template is among them.
    pub(crate) fn has(&self, shape: &Arc<Template>) -> bool
        ensures { result ≡ is_among (arc_value shape.now) self.now.shapes }
    {
        self.shapes.contains(shape)
    }

    /// The template at a place.
    pub(crate) fn shape(&self, place: usize) -> &Template
        requires { place < length self.now.shapes }
        ensures { Rattle.std.specs.Prelude.slice_get self.now.shapes place
            ≡ Rattle.std.specs.Prelude.Some result.now }
    {
        let Some(shape) = self.shapes.get_index(place) else {
            unreachable!()
        };
        shape
    }

    /// Makes room for `more` further templates.
    ///
    /// # Errors
    /// Want of memory; then no room was made.
    pub(crate) fn reserve(&mut self, more: usize) -> Result<(), AllocError>
        ensures shapes { self.new.shapes ≡ self.old.shapes }
        ensures ok { OnOk result (more ≤ self.new.spare) }
        ensures kept { self.old.spare ≤ self.new.spare }
    {
        self.shapes.reserve(more)
    }

    /// The template's place, and whether it was new, in which case it is added at the end.
    pub(crate) fn place_reserved(&mut self, shape: Arc<Template>) -> (usize, bool)
        requires { 0 < self.old.spare }
        ensures shapes { self.new.shapes ≡ with_shape self.old.shapes (arc_value shape) }
        // The place is that of an equal template, or the end where there is none.
        ensures place { result.0
            ≡ position_or_len (same_template (arc_value shape)) self.old.shapes }
        ensures added { result.1 ≡ not (is_among (arc_value shape) self.old.shapes) }
        ensures kept { self.old.spare ≤ self.new.spare + 1 }
    {
        if let Some(place) = self.place_again(&shape) {
            return (place, false);
        }
        self.place_by_hash(shape)
    }

    /// The template's place, where it is the one that was answered last. No hash is taken.
    fn place_again(&self, shape: &Template) -> Option<usize>
        ensures { IfSome result
            (λ place. (place ≡ position_or_len (same_template shape.now) self.now.shapes)
            × (is_among shape.now self.now.shapes ≡ true)) }
    {
        // The templates are distinct, so that one that is equal to this one has its place.
        if self.last < self.shapes.len() && shape == self.shape(self.last) {
            return Some(self.last);
        }
        None
    }

    /// Places the template as [`ShapeTable::place_reserved`] does, by its hash.
    fn place_by_hash(&mut self, shape: Arc<Template>) -> (usize, bool)
        requires { 0 < self.old.spare }
        ensures shapes { self.new.shapes ≡ with_shape self.old.shapes (arc_value shape) }
        // The place is that of an equal template, or the end where there is none.
        ensures place { result.0
            ≡ position_or_len (same_template (arc_value shape)) self.old.shapes }
        ensures added { result.1 ≡ not (is_among (arc_value shape) self.old.shapes) }
        ensures kept { self.old.spare ≤ self.new.spare + 1 }
    {
        match self.shapes.insert_full(shape) {
            Ok(placed) => {
                self.last = placed.0;
                placed
            }
            Err(_) => unreachable!(),
        }
    }
}
