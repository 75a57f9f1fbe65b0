ghost use Rattle.std.specs.Prelude.{◌≡◌, IfOk};
ghost use Rattle.ad_terms.specs.Built.{axiom_of, below};
ghost use Rattle.ad_terms.specs.declared.keyword.AxiomWord.TheVariants as axiomword;

use crate::key::key;
use crate::keyword::{AxiomWord, EndWord, FactWord, NamesWord, SetWord, TraitWord};
use crate::reads_as::Lower;
use crate::shapes::{each, first_and_each, one, three, two};
use crate::stack::Stack;
use ad_base::{Memory, Word};
use ad_tree::{Axiom, Class, Individual, Literal, ObjProp};
use std::alloc::Global;

/// The axiom of a keyword and its arguments behind the annotations.
pub fn axiom_of(alloc: Global, word: AxiomWord, arguments: Stack) -> Result<Option<Axiom>, Memory>
    ensures { IfOk result (λ found. found ≡ axiom_of word arguments) }
{
    match word {
        AxiomWord::SubClassOf => Ok(sub_class_of(arguments)),
        AxiomWord::Classes(word) => classes(alloc, word, arguments),
        AxiomWord::DisjointUnion => disjoint_union(alloc, arguments),
        AxiomWord::SubObjectPropertyOf => Ok(sub_property_of(arguments)),
        AxiomWord::Properties(word) => properties(alloc, word, arguments),
        AxiomWord::Inverse => Ok(inverse(arguments)),
        AxiomWord::PropertyEnd(word) => Ok(property_end(word, arguments)),
        AxiomWord::Trait(word) => Ok(property_trait(word, arguments)),
        AxiomWord::Names(word) => Ok(names(word, arguments)),
        AxiomWord::DataProperties(word) => data_properties(alloc, word, arguments),
        AxiomWord::DataPropertyDomain => Ok(data_domain(arguments)),
        AxiomWord::DataPropertyRange => Ok(data_range(arguments)),
        AxiomWord::FunctionalDataProperty => Ok(functional_data(arguments)),
        AxiomWord::DatatypeDefinition => Ok(datatype_definition(arguments)),
        AxiomWord::HasKey => key(alloc, arguments),
        AxiomWord::Individuals(word) => individuals(alloc, word, arguments),
        AxiomWord::ClassAssertion => Ok(class_assertion(arguments)),
        AxiomWord::PropertyFact(word) => Ok(property_fact(word, arguments)),
        AxiomWord::DataFact(word) => Ok(data_fact(word, arguments)),
        AxiomWord::Declaration => Ok(declaration(arguments)),
        AxiomWord::AnnotationAssertion => Ok(annotation_assertion(arguments)),
    }
}

// A class below another.
fn sub_class_of(arguments: Stack) -> Option<Axiom>
    ensures { result ≡ axiom_of axiomword.SubClassOf arguments }
{
    let (lower, upper) = two(arguments)?;
    Some(Axiom::SubClassOf(lower, upper))
}

// Classes that are the same, or have nothing in common.
fn classes(alloc: Global, word: SetWord, arguments: Stack) -> Result<Option<Axiom>, Memory>
    ensures { IfOk result (λ found. found ≡ axiom_of (axiomword.Classes word) arguments) }
{
    match each(alloc, arguments)? {
        Some(classes) => Ok(Some(match word {
            SetWord::Same => Axiom::EquivalentClasses(classes),
            SetWord::Different => Axiom::DisjointClasses(classes),
        })),
        None => Ok(None),
    }
}

// A class that is the union of others with nothing in common.
fn disjoint_union(alloc: Global, arguments: Stack) -> Result<Option<Axiom>, Memory>
    ensures { IfOk result (λ found. found ≡ axiom_of axiomword.DisjointUnion arguments) }
{
    match first_and_each(alloc, arguments)? {
        Some((class, parts)) => Ok(Some(Axiom::DisjointUnion(class, parts))),
        None => Ok(None),
    }
}

// An object property, or a chain of them, below another.
fn sub_property_of(arguments: Stack) -> Option<Axiom>
    ensures { result ≡ axiom_of axiomword.SubObjectPropertyOf arguments }
{
    let (lower, upper) = two(arguments)?;
    Some(below(lower, upper))
}

// The axiom of this lower and this upper side.
fn below(lower: Lower, upper: ObjProp) -> Axiom
    ensures { result ≡ below lower upper }
{
    match lower {
        Lower::Property(property) => Axiom::SubObjectPropertyOf(property, upper),
        Lower::Chain(chain) => Axiom::SubObjectPropertyChainOf(chain, upper),
    }
}

// Object properties that are the same, or have nothing in common.
fn properties(alloc: Global, word: SetWord, arguments: Stack) -> Result<Option<Axiom>, Memory>
    ensures { IfOk result (λ found. found ≡ axiom_of (axiomword.Properties word) arguments) }
{
    match each(alloc, arguments)? {
        Some(properties) => Ok(Some(match word {
            SetWord::Same => Axiom::EquivalentObjectProperties(properties),
            SetWord::Different => Axiom::DisjointObjectProperties(properties),
        })),
        None => Ok(None),
    }
}

// An object property that is the inverse of another.
fn inverse(arguments: Stack) -> Option<Axiom>
    ensures { result ≡ axiom_of axiomword.Inverse arguments }
{
    let (first, second) = two(arguments)?;
    Some(Axiom::InverseObjectProperties(first, second))
}

// The domain or the range of an object property.
fn property_end(word: EndWord, arguments: Stack) -> Option<Axiom>
    ensures { result ≡ axiom_of (axiomword.PropertyEnd word) arguments }
{
    let (property, class): (ObjProp, Class) = two(arguments)?;
    Some(match word {
        EndWord::Domain => Axiom::ObjectPropertyDomain(property, class),
        EndWord::Range => Axiom::ObjectPropertyRange(property, class),
    })
}

// What an object property is.
fn property_trait(word: TraitWord, arguments: Stack) -> Option<Axiom>
    ensures { result ≡ axiom_of (axiomword.Trait word) arguments }
{
    let property: ObjProp = one(arguments)?;
    Some(match word {
        TraitWord::Functional => Axiom::FunctionalObjectProperty(property),
        TraitWord::InverseFunctional => Axiom::InverseFunctionalObjectProperty(property),
        TraitWord::Reflexive => Axiom::ReflexiveObjectProperty(property),
        TraitWord::Irreflexive => Axiom::IrreflexiveObjectProperty(property),
        TraitWord::Symmetric => Axiom::SymmetricObjectProperty(property),
        TraitWord::Asymmetric => Axiom::AsymmetricObjectProperty(property),
        TraitWord::Transitive => Axiom::TransitiveObjectProperty(property),
    })
}

// An axiom on two names.
fn names(word: NamesWord, arguments: Stack) -> Option<Axiom>
    ensures { result ≡ axiom_of (axiomword.Names word) arguments }
{
    let (first, second): (Word, Word) = two(arguments)?;
    Some(match word {
        NamesWord::SubDataPropertyOf => Axiom::SubDataPropertyOf(first, second),
        NamesWord::SubAnnotationPropertyOf => Axiom::SubAnnotationPropertyOf(first, second),
        NamesWord::AnnotationPropertyDomain => Axiom::AnnotationPropertyDomain(first, second),
        NamesWord::AnnotationPropertyRange => Axiom::AnnotationPropertyRange(first, second),
    })
}

// Data properties that are the same, or have nothing in common.
fn data_properties(alloc: Global, word: SetWord, arguments: Stack) -> Result<Option<Axiom>, Memory>
    ensures { IfOk result (λ found. found ≡ axiom_of (axiomword.DataProperties word) arguments) }
{
    match each(alloc, arguments)? {
        Some(properties) => Ok(Some(match word {
            SetWord::Same => Axiom::EquivalentDataProperties(properties),
            SetWord::Different => Axiom::DisjointDataProperties(properties),
        })),
        None => Ok(None),
    }
}

// The domain of a data property.
fn data_domain(arguments: Stack) -> Option<Axiom>
    ensures { result ≡ axiom_of axiomword.DataPropertyDomain arguments }
{
    let (property, domain) = two(arguments)?;
    Some(Axiom::DataPropertyDomain(property, domain))
}

// The range of a data property.
fn data_range(arguments: Stack) -> Option<Axiom>
    ensures { result ≡ axiom_of axiomword.DataPropertyRange arguments }
{
    let (property, range) = two(arguments)?;
    Some(Axiom::DataPropertyRange(property, range))
}

// A data property with one value at most.
fn functional_data(arguments: Stack) -> Option<Axiom>
    ensures { result ≡ axiom_of axiomword.FunctionalDataProperty arguments }
{
    let property = one(arguments)?;
    Some(Axiom::FunctionalDataProperty(property))
}

// A datatype that is a data range.
fn datatype_definition(arguments: Stack) -> Option<Axiom>
    ensures { result ≡ axiom_of axiomword.DatatypeDefinition arguments }
{
    let (datatype, range) = two(arguments)?;
    Some(Axiom::DatatypeDefinition(datatype, range))
}

// Individuals that are the same, or no two of them.
fn individuals(alloc: Global, word: SetWord, arguments: Stack) -> Result<Option<Axiom>, Memory>
    ensures { IfOk result (λ found. found ≡ axiom_of (axiomword.Individuals word) arguments) }
{
    match each(alloc, arguments)? {
        Some(individuals) => Ok(Some(match word {
            SetWord::Same => Axiom::SameIndividual(individuals),
            SetWord::Different => Axiom::DifferentIndividuals(individuals),
        })),
        None => Ok(None),
    }
}

// An individual of a class.
fn class_assertion(arguments: Stack) -> Option<Axiom>
    ensures { result ≡ axiom_of axiomword.ClassAssertion arguments }
{
    let (class, individual) = two(arguments)?;
    Some(Axiom::ClassAssertion(class, individual))
}

// An individual to which an object property leads from another, or does not.
fn property_fact(word: FactWord, arguments: Stack) -> Option<Axiom>
    ensures { result ≡ axiom_of (axiomword.PropertyFact word) arguments }
{
    let (property, (source, target)): (ObjProp, (Individual, Individual)) = three(arguments)?;
    Some(match word {
        FactWord::Holds => Axiom::ObjectPropertyAssertion(property, source, target),
        FactWord::Fails => Axiom::NegativeObjectPropertyAssertion(property, source, target),
    })
}

// A value to which a data property leads from an individual, or does not.
fn data_fact(word: FactWord, arguments: Stack) -> Option<Axiom>
    ensures { result ≡ axiom_of (axiomword.DataFact word) arguments }
{
    let (property, (source, value)): (Word, (Individual, Literal)) = three(arguments)?;
    Some(match word {
        FactWord::Holds => Axiom::DataPropertyAssertion(property, source, value),
        FactWord::Fails => Axiom::NegativeDataPropertyAssertion(property, source, value),
    })
}

// A declared entity.
fn declaration(arguments: Stack) -> Option<Axiom>
    ensures { result ≡ axiom_of axiomword.Declaration arguments }
{
    let declared = one(arguments)?;
    Some(Axiom::Declaration(declared))
}

// A value of an annotation property.
fn annotation_assertion(arguments: Stack) -> Option<Axiom>
    ensures { result ≡ axiom_of axiomword.AnnotationAssertion arguments }
{
    let (property, (subject, value)) = three(arguments)?;
    Some(Axiom::AnnotationAssertion(property, subject, value))
}
