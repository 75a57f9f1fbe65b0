//! How the axioms of an ontology go into the documents of its parts. It is found once, so that a part only tests bits.
ghost use Rattle.std.specs.Prelude.{◌≡◌, ◌<◌, ◌||◌, ℕ, Bool, None, IfSome};
ghost use Rattle.std.specs.List.{list_any};
ghost use Rattle.ad_entity.specs.Entities.{all_kinds, entity};
ghost use Rattle.ad_split.specs.Going.{GoesAs, Tells};
ghost use Rattle.ad_split.specs.Slots.{is_about, is_number_in};

use ad_base::Word;
use ad_numbered::NumberedOntology;
use ad_tree::{Axiom, Entity, EntityKind, Naming, Noted, Subject};

/// How an axiom goes into documents.
#[derive(Clone, Copy)]
pub enum Going {
    /// It is a logical axiom, and goes where its slot is a member.
    Logical(u32),
    /// It goes where this number is in the closure.
    With(u32),
    /// It goes into no document.
    Never,
    /// It is to be asked of its text where it goes.
    Asked,
}

// How an axiom with this slot, if it has one, goes.
pub(crate) fn going_of(ontology: &NumberedOntology, noted: &Noted, slot: Option<u32>) -> Going
    requires { IfSome slot (λ i. i < ontology.now.most) }
    ensures { GoesAs ontology.now noted.now slot result }
{
    match slot {
        Some(slot) => Going::Logical(slot),
        None => carried(ontology, noted),
    }
}

// How a carried axiom goes.
fn carried(ontology: &NumberedOntology, noted: &Noted) -> Going
    ensures { GoesAs ontology.now noted.now None result }
{
    match &noted.axiom {
        Axiom::Declaration(declared) => declaration(ontology, declared),
        Axiom::AnnotationAssertion(_, Subject::Iri(iri), _) => about(ontology, iri),
        _ => Going::Never,
    }
}

// How the declaration of an entity goes.
fn declaration(ontology: &NumberedOntology, declared: &Entity) -> Going
    ensures { Tells ontology.now.symbols (λ closure. is_about ontology.now closure declared.now) result }
{
    ontology.laws();
    match ontology.number_of(declared) {
        Some(number) => Going::With(number),
        None => Going::Never,
    }
}

// How what is said about an IRI goes: with the entities of whatever kind that it names.
fn about(ontology: &NumberedOntology, iri: &Word) -> Going
    ensures { Tells ontology.now.symbols (λ closure. list_any (λ kind. is_about ontology.now closure (entity kind iri.now)) all_kinds) result }
{
    ontology.laws();
    let kinds = [
        EntityKind::Class,
        EntityKind::Datatype,
        EntityKind::ObjectProperty,
        EntityKind::DataProperty,
        EntityKind::AnnotationProperty,
        EntityKind::NamedIndividual,
    ];
    let mut going = Going::Never;
    for kind in &kinds {
        going = or_with(going, ontology.number(*kind, iri));
    }
    going
}

// What goes so, or with this number, if there is one.
fn or_with(going: Going, number: Option<u32>) -> Going
    ensures { (numbers : ℕ) (test : (ℕ → Bool) → Bool) → IfSome number (λ n. n < numbers) → Tells numbers test going →
        Tells numbers (λ closure. test closure || is_number_in closure number) result }
{
    match number {
        Some(number) => or_number(going, number),
        None => going,
    }
}

// What goes so, or with this number.
fn or_number(going: Going, number: u32) -> Going
    ensures { (numbers : ℕ) (test : (ℕ → Bool) → Bool) → number < numbers → Tells numbers test going →
        Tells numbers (λ closure. test closure || closure number) result }
{
    match going {
        Going::Never => Going::With(number),
        _ => Going::Asked,
    }
}
