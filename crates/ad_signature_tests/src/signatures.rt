//! The signatures of axioms.
use ad_base::{Limits, Memory};
use ad_read::{ReadRefused, read_axiom};
use ad_signature::signature;
use ad_tree::{EntityKind, Seed};
use std::alloc::Global;
use std::test::Fail;

// An axiom, and the entities of its signature: a letter for the kind and the name of each.
const TABLE: &[(&str, &[&str])] = &[
    ("SubClassOf(<u:B> <u:A>)", &["cu:B", "cu:A"]),
    ("SubClassOf(<u:A> <u:A>)", &["cu:A"]),
    (
        "SubClassOf(<http://www.w3.org/2002/07/owl#Thing> <u:A>)",
        &["cu:A"],
    ),
    (
        "SubClassOf(Annotation(<u:n> <u:m>) <u:A> ObjectSomeValuesFrom(ObjectInverseOf(<u:r>) ObjectOneOf(_:x <u:i> <u:i>)))",
        &["cu:A", "ou:r", "iu:i"],
    ),
    (
        "DataPropertyAssertion(<u:A> <u:A> \"1\"^^<u:A>)",
        &["du:A", "iu:A", "tu:A"],
    ),
];

// The letter of a kind.
fn letter(kind: EntityKind) -> &'static str {
    match kind {
        EntityKind::Class => "c",
        EntityKind::Datatype => "t",
        EntityKind::ObjectProperty => "o",
        EntityKind::DataProperty => "d",
        EntityKind::AnnotationProperty => "a",
        EntityKind::NamedIndividual => "i",
    }
}

// Whether these are the entities, in order.
fn are_named(seed: &Seed, names: &[&str]) -> bool {
    let entities = seed.entities();
    if entities.len() != names.len() {
        return false;
    }
    for (entity, name) in entities.iter().zip(names) {
        if name.strip_prefix(letter(entity.kind)) != Some(entity.name.as_str()) {
            return false;
        }
    }
    true
}

// The signature of the axiom that the text spells; a text that isn't read has none.
fn signature_of(alloc: Global, text: &str) -> Result<Option<Seed>, Memory> {
    if text.len() >= 1_000 {
        return Ok(None);
    }
    match read_axiom(alloc, text.as_bytes(), &Limits::standard()) {
        Ok(noted) => Ok(Some(signature(alloc, &noted)?)),
        Err(ReadRefused::Memory) => Err(Memory),
        Err(_) => Ok(None),
    }
}

// Whether the text spells an axiom with this signature.
fn has_signature(alloc: Global, text: &str, names: &[&str]) -> Result<bool, Memory> {
    match signature_of(alloc, text)? {
        Some(seed) => Ok(are_named(&seed, names)),
        None => Ok(false),
    }
}

#[test]
fn signatures(rt: HostRuntime) -> Result<(), Fail> {
    for (text, names) in TABLE {
        assert!(rt; has_signature(rt.alloc(), *text, *names)?, "{text}");
    }
    Ok(())
}
