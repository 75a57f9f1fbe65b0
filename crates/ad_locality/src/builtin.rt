ghost use Rattle.std.specs.Prelude.{◌≡◌};
ghost use Rattle.ad_entity.specs.declared.entities.EntityKind.TheVariants as kinds;
ghost use Rattle.ad_locality.specs.Columns.{builtin, datatype, top_or_bottom};

use crate::surely::{EVERYTHING, INHABITED, NEITHER, NOTHING, Surely};
use ad_base::Word;
use ad_entity::{EntityKind, is_reserved};

// What is sure of an IRI, where one is everything and another is nothing.
fn top_or_bottom(top: &str, bottom: &str, iri: &Word) -> Option<Surely>
    ensures { result ≡ top_or_bottom top.now bottom.now iri.now }
{
    if iri.as_str() == top {
        Some(EVERYTHING)
    } else if iri.as_str() == bottom {
        Some(NOTHING)
    } else {
        None
    }
}

// What is sure of a datatype.
fn of_datatype(name: &Word) -> Option<Surely>
    ensures { result ≡ datatype name.now }
{
    if !is_reserved(name) {
        return None;
    }
    if name.as_str() == "http://www.w3.org/2000/01/rdf-schema#Literal" {
        return Some(EVERYTHING);
    }
    Some(INHABITED)
}

// What is sure of an annotation property: no column is read.
fn of_annotation_property(name: &Word) -> Option<Surely>
    ensures { result ≡ builtin kinds.AnnotationProperty name.now }
{
    if is_reserved(name) {
        Some(NEITHER)
    } else {
        None
    }
}

/// What is sure of a built-in name of this kind, and None for a name that isn't built in. It takes no memory.
pub fn standing(kind: EntityKind, name: &Word) -> Option<Surely>
    ensures { result ≡ builtin kind name.now }
{
    match kind {
        EntityKind::Class => top_or_bottom(
            "http://www.w3.org/2002/07/owl#Thing",
            "http://www.w3.org/2002/07/owl#Nothing",
            name,
        ),
        EntityKind::ObjectProperty => top_or_bottom(
            "http://www.w3.org/2002/07/owl#topObjectProperty",
            "http://www.w3.org/2002/07/owl#bottomObjectProperty",
            name,
        ),
        EntityKind::DataProperty => top_or_bottom(
            "http://www.w3.org/2002/07/owl#topDataProperty",
            "http://www.w3.org/2002/07/owl#bottomDataProperty",
            name,
        ),
        EntityKind::Datatype => of_datatype(name),
        EntityKind::AnnotationProperty => of_annotation_property(name),
        EntityKind::NamedIndividual => None,
    }
}
