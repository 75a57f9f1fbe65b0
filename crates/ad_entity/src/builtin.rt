ghost use Rattle.std.specs.Prelude.{◌≡◌};
ghost use Rattle.ad_entity.specs.Builtin.{is_builtin_name, is_one_of_two, is_reserved};

use crate::entities::EntityKind;
use ad_base::Word;

/// Whether the IRI begins with a namespace of the standard. It takes no memory.
pub fn is_reserved(iri: &Word) -> bool
    ensures { result ≡ is_reserved iri.now }
{
    let iri = iri.as_bytes();
    iri.starts_with(b"http://www.w3.org/2002/07/owl#")
        || iri.starts_with(b"http://www.w3.org/1999/02/22-rdf-syntax-ns#")
        || iri.starts_with(b"http://www.w3.org/2000/01/rdf-schema#")
        || iri.starts_with(b"http://www.w3.org/2001/XMLSchema#")
}

// Whether the IRI is one of two names of the standard.
fn is_one_of_two(top: &str, bottom: &str, iri: &Word) -> bool
    ensures { result ≡ is_one_of_two top.now bottom.now iri.now }
{
    iri.as_str() == top || iri.as_str() == bottom
}

// Whether a name is built in where one of this kind stands. It takes no memory.
pub(crate) fn is_builtin_name(kind: EntityKind, name: &Word) -> bool
    ensures { result ≡ is_builtin_name kind name.now }
{
    match kind {
        EntityKind::Class => is_one_of_two(
            "http://www.w3.org/2002/07/owl#Thing",
            "http://www.w3.org/2002/07/owl#Nothing",
            name,
        ),
        EntityKind::ObjectProperty => is_one_of_two(
            "http://www.w3.org/2002/07/owl#topObjectProperty",
            "http://www.w3.org/2002/07/owl#bottomObjectProperty",
            name,
        ),
        EntityKind::DataProperty => is_one_of_two(
            "http://www.w3.org/2002/07/owl#topDataProperty",
            "http://www.w3.org/2002/07/owl#bottomDataProperty",
            name,
        ),
        EntityKind::Datatype | EntityKind::AnnotationProperty => is_reserved(name),
        EntityKind::NamedIndividual => false,
    }
}
