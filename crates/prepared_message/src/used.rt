//! The templates that a message used: those that the IDs of its Data Sets had.
ghost use Rattle.std.specs.Prelude.{◌≡◌, ◌↔◌, ◌++◌, ◌∷◌, ℕ, List, map, None, IfOk, IsTrue, OnOk};
ghost use Rattle.std.specs.Option.{option_copied, option_map};
ghost use Rattle.std.specs.Arc.{arc_value};
ghost use Rattle.ipfix_message.specs.declared.item.Item.{Item};
ghost use Rattle.ipfix_session.specs.Standing.{StandsFor};
ghost use Rattle.prepared_message.specs.Uses.{IsUseInForce, AreUsesInForce, known_in, data_set_of, is_again, used_by};
ghost use Rattle.prepared_message.specs.Seen.{used_pair};

use ipfix_message::Item;
use ipfix_session::{Session, Templates};
use ipfix_template::Template;
use std::alloc::{AllocError, Global};
use std::sync::Arc;

/// The ID of a Data Set, and the template that it had when the set was read, or none.
#[derive(Drop)]
pub(crate) struct Used {
    id: u16,
    template: Option<Arc<Template>>,
}

impl Used {
    /// The template that the ID had, or `None`.
    fn template(&self) -> Option<&Template>
        ensures { option_copied result ≡ (used_pair self.now).1 }
    {
        match &self.template {
            Some(shared) => Some(shared),
            None => None,
        }
    }

    /// Whether the ID has the same template in the Observation Domain `domain` of `session`, or none where it had none.
    fn is_in_force(&self, domain: u32, session: &Session) -> bool
        ensures { (older : List (List ℕ)) → StandsFor session.now older
            → IsTrue result ↔ IsUseInForce domain older (used_pair self.now) }
    {
        are_same(session.template(domain, self.id), self.template())
    }
}

/// Whether the templates `kept` and `used` are the same, or neither is there.
fn are_same(kept: Option<&Template>, used: Option<&Template>) -> bool
    ensures { IsTrue result ↔ (option_copied kept.entry ≡ option_copied used.entry) }
{
    match kept {
        Some(kept) => match used {
            Some(used) => kept == used,
            None => false,
        },
        None => used.is_none(),
    }
}

/// Whether each ID of `uses` has the same template in the Observation Domain `domain` of `session`, or none where it
/// had none.
pub(crate) fn are_in_force(uses: &[Used], domain: u32, session: &Session) -> bool
    ensures { (older : List (List ℕ)) → StandsFor session.now older
        → IsTrue result ↔ AreUsesInForce domain older (map used_pair uses.now) }
{
    for used in uses {
        if !used.is_in_force(domain, session) {
            return false;
        }
    }
    true
}

/// The IDs of the Data Sets among the items `said` of a message, with those of `templates` that they have in the
/// Observation Domain `domain`, in memory from `alloc`. Where Data Sets of one ID stand one after another, it is there
/// once.
///
/// # Errors
/// Want of memory.
pub(crate) fn used_by(
    alloc: Global,
    templates: &Templates,
    domain: u32,
    said: &[Item],
) -> Result<Vec<Used>, AllocError>
    ensures { IfOk result (λ uses.
        map used_pair uses.items ≡ used_by (known_in domain templates.now) None said.now) }
{
    let mut uses = Vec::new(alloc);
    let mut before = None;
    for item in said {
        put_used(templates, domain, item, &mut before, &mut uses)?;
    }
    Ok(uses)
}

/// Puts the ID of `item`, where that is a Data Set, behind those in `uses`, with that of `templates` which it has in
/// the Observation Domain `domain`; unless `before`, the ID of the Data Set before it, is the same. Then `before` is
/// the ID of this Data Set.
///
/// # Errors
/// Want of memory.
fn put_used(
    templates: &Templates,
    domain: u32,
    item: &Item,
    before: &mut Option<u16>,
    uses: &mut Vec<Used>,
) -> Result<(), AllocError>
    ensures { OnOk result ((items : List Item) → map used_pair uses.new.items
        ++ used_by (known_in domain templates.now) before.new items ≡ map used_pair uses.old.items
        ++ used_by (known_in domain templates.now) before.old (item.now ∷ items)) }
{
    match data_set_of(item) {
        Some(id) if !is_again(*before, id) => {
            uses.reserve(1)?;
            uses.push_reserved(used_of(templates, domain, id)?);
            *before = Some(id);
            Ok(())
        }
        _ => Ok(()),
    }
}

/// The ID of `item` where that is a Data Set, or `None`.
fn data_set_of(item: &Item) -> Option<u16>
    ensures { result ≡ data_set_of item.now }
{
    match item {
        Item::DataSet { id, .. } => Some(*id),
        _ => None,
    }
}

/// Whether `before`, the ID of the Data Set before, is `id` too.
fn is_again(before: Option<u16>, id: u16) -> bool
    ensures { result ≡ is_again before id }
{
    match before {
        Some(last) => last == id,
        None => false,
    }
}

/// The ID `id` with that of `templates` which it has in the Observation Domain `domain`, if any.
///
/// # Errors
/// Want of memory.
fn used_of(templates: &Templates, domain: u32, id: u16) -> Result<Used, AllocError>
    ensures { IfOk result (λ used. used_pair used ≡ (id, known_in domain templates.now id)) }
{
    let template = match templates.shared(domain, id) {
        Some(shared) => Some(shared.clone()?),
        None => None,
    };
    Ok(Used { id, template })
}
