ghost use Rattle.std.specs.Prelude.{◌≡◌};
ghost use Rattle.ad_syntax_laws.specs.ModuleDocument.{goes_with, is_iri_of_one};

use ad_base::Word;
use ad_tree::{Axiom, EntityKind, Noted, Seen, Subject};

/// Whether the axiom declares one of these entities, or is an annotation assertion on the IRI of one.
pub fn goes_with<S: Seen>(noted: &Noted, entities: &S) -> bool
    ensures { result ≡ goes_with (S.member entities.now) noted.now.axiom }
{
    match &noted.axiom {
        Axiom::Declaration(declared) => entities.has(declared.kind, &declared.name),
        Axiom::AnnotationAssertion(_, Subject::Iri(iri), _) => is_iri_of_one(iri, entities),
        _ => false,
    }
}

// Whether one of these entities, of whatever kind, has this IRI.
fn is_iri_of_one<S: Seen>(iri: &Word, entities: &S) -> bool
    ensures { result ≡ is_iri_of_one (S.member entities.now) iri.now }
{
    let kinds = [
        EntityKind::Class,
        EntityKind::Datatype,
        EntityKind::ObjectProperty,
        EntityKind::DataProperty,
        EntityKind::AnnotationProperty,
        EntityKind::NamedIndividual,
    ];
    kinds.iter().any(|kind| entities.has(*kind, iri))
}
