//! What is kept of the records of a run are octets and numbers: these name the fields by their types, so that nothing else
//! compiles.
use crate::texts::Texts;
use bytes::Bytes;
use ipfix_records::RunTexts;
use std::process::Abort;
use std::sync::Arc;
use std::test::Fail;

fn octets_of(texts: &Texts) -> &Bytes {
    &texts.texts.octets
}

fn ends_of(texts: &Texts) -> &Vec<u32> {
    &texts.texts.ends
}

#[test]
fn texts_keep_octets_and_where_each_ends(rt: HostRuntime) -> Result<(), Fail> {
    let kept = RunTexts {
        octets: Bytes::from_static(b""),
        ends: Vec::new(rt.alloc()),
    };
    let texts = Texts::new(Arc::new(rt.alloc(), kept)?);
    assert!(rt; octets_of(&texts).is_empty());
    assert!(rt; ends_of(&texts).is_empty());
    Ok(())
}
