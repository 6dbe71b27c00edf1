//! Templates and records of registered elements, for the other tests.
use bytes::Bytes;
use ipfix_element::ElementId;
use ipfix_template::{FieldSpec, Fields, Record, Template, Values};
use std::alloc::Global;
use std::sync::Arc;
use std::test::Fail;

/// Fields by their numbers in the registry and their lengths, the first `scope` of them scope fields.
pub(crate) struct Layout {
    pub(crate) fields: &'static [(u16, u16)],
    pub(crate) scope: u16,
}

pub(crate) fn shared_template(
    alloc: Global,
    specs: Vec<FieldSpec>,
    scope: u16,
) -> Result<Arc<Template>, Fail> {
    let fields = Fields::from_vec(specs)?;
    Ok(Arc::new(alloc, Template { fields, scope })?)
}

pub(crate) fn template_of(alloc: Global, layout: &Layout) -> Result<Arc<Template>, Fail> {
    let mut specs = Vec::new(alloc);
    for (number, length) in layout.fields {
        let element = ElementId::new(None, *number).ok_or("an element")?;
        let length = *length;
        specs.push(FieldSpec { element, length })?;
    }
    shared_template(alloc, specs, layout.scope)
}

pub(crate) fn values_of(alloc: Global, texts: &[&'static [u8]]) -> Result<Values, Fail> {
    let mut values = Vec::new(alloc);
    for text in texts {
        values.push(Bytes::from_static(text))?;
    }
    Ok(Values::from_vec(values))
}

pub(crate) fn record_of(
    alloc: Global,
    template: Arc<Template>,
    values: Values,
) -> Result<Record, Fail> {
    Ok(Record::try_new(alloc, template, values).map_err(|_| "refused")?)
}
