//! The table of axioms.
use crate::columns::{AxiomRow, SeenAxiomRow, wrong_axiom, wrong_seen_axiom};
use std::test::Fail;

#[rattlefmt::skip]
static CLASSES: [AxiomRow; 18] = [
    // on the bottom side the lower class is empty, on the top side the upper one everything
    ("SubClassOf(<u:A> <u:B>)", "both", "neither"),
    ("SubClassOf(owl:Thing <u:B>)", "top", "neither"),
    ("SubClassOf(<u:A> owl:Nothing)", "bottom", "neither"),
    ("SubClassOf(owl:Nothing owl:Thing)", "both", "both"),
    // the upper class is everything, for what is related to all isn't empty
    ("SubClassOf(<u:A> ObjectSomeValuesFrom(owl:topObjectProperty ObjectOneOf(<u:i>)))", "both", "both"),
    ("SubClassOf(<u:A> ObjectSomeValuesFrom(owl:topObjectProperty <u:B>))", "both", "neither"),
    // the lower class is empty, for the datatype has a value
    ("SubClassOf(DataMaxCardinality(0 owl:topDataProperty xsd:string) <u:A>)", "both", "both"),
    ("SubClassOf(DataMaxCardinality(0 <u:p> xsd:string) <u:A>)", "top", "neither"),
    // all are empty, or all are everything
    ("EquivalentClasses(<u:A> <u:B>)", "both", "neither"),
    ("EquivalentClasses(<u:A> owl:Nothing)", "bottom", "neither"),
    ("EquivalentClasses(owl:Thing <u:A>)", "top", "neither"),
    // one class is as itself; the same one twice are two operands
    ("EquivalentClasses(<u:A>)", "both", "both"),
    ("EquivalentClasses(<u:A> <u:A>)", "both", "neither"),
    // all but one are empty
    ("DisjointClasses(<u:A> <u:B>)", "bottom", "neither"),
    ("DisjointClasses(<u:A> owl:Nothing)", "both", "both"),
    ("DisjointClasses(owl:Thing <u:A> <u:B>)", "bottom", "neither"),
    ("DisjointClasses(<u:A>)", "both", "both"),
    ("DisjointClasses(<u:A> <u:A>)", "bottom", "neither"),
];

#[rattlefmt::skip]
static UNIONS: [AxiomRow; 8] = [
    // on the top side two parts are everything
    ("DisjointUnion(<u:A> <u:B> <u:C>)", "bottom", "neither"),
    // one part is everything, and there is no other
    ("DisjointUnion(<u:A> <u:B>)", "both", "neither"),
    // one part is everything, and the other empty, wherever it stands
    ("DisjointUnion(<u:A> <u:B> owl:Nothing)", "both", "neither"),
    ("DisjointUnion(<u:A> owl:Nothing <u:B>)", "both", "neither"),
    // no part is everything
    ("DisjointUnion(<u:A> owl:Nothing)", "bottom", "neither"),
    // the same part twice are two parts
    ("DisjointUnion(<u:A> <u:B> <u:B>)", "bottom", "neither"),
    // on the bottom side the class isn't empty, and no part is everything
    ("DisjointUnion(owl:Thing <u:B> owl:Nothing)", "top", "neither"),
    ("DisjointUnion(owl:Thing owl:Nothing owl:Thing)", "both", "both"),
];

#[rattlefmt::skip]
static PROPERTIES: [AxiomRow; 14] = [
    // on the bottom side the lower property is empty, on the top side the upper one everything
    ("SubObjectPropertyOf(<u:r> <u:s>)", "both", "neither"),
    ("SubObjectPropertyOf(<u:r> owl:bottomObjectProperty)", "bottom", "neither"),
    ("SubObjectPropertyOf(ObjectInverseOf(<u:r>) owl:topObjectProperty)", "both", "both"),
    // one link is empty, or the upper property is everything
    ("SubObjectPropertyOf(ObjectPropertyChain(<u:r> <u:s>) <u:t>)", "both", "neither"),
    ("SubObjectPropertyOf(ObjectPropertyChain(owl:topObjectProperty <u:s>) owl:bottomObjectProperty)", "bottom", "neither"),
    ("SubObjectPropertyOf(ObjectPropertyChain(<u:r> owl:bottomObjectProperty) <u:t>)", "both", "both"),
    // all are empty, or all are everything, or there is one
    ("EquivalentObjectProperties(<u:r> <u:s>)", "both", "neither"),
    ("EquivalentObjectProperties(<u:r> owl:topObjectProperty)", "top", "neither"),
    ("EquivalentObjectProperties(<u:r>)", "both", "both"),
    // all but one are empty
    ("DisjointObjectProperties(<u:r> <u:s>)", "bottom", "neither"),
    ("DisjointObjectProperties(<u:r> owl:bottomObjectProperty)", "both", "both"),
    // both are empty, or both are everything
    ("InverseObjectProperties(<u:r> <u:s>)", "both", "neither"),
    ("InverseObjectProperties(<u:r> owl:topObjectProperty)", "top", "neither"),
    ("InverseObjectProperties(owl:bottomObjectProperty <u:s>)", "bottom", "neither"),
];

#[rattlefmt::skip]
static CHARACTERISTICS: [AxiomRow; 14] = [
    // an empty property has each of these
    ("FunctionalObjectProperty(<u:r>)", "bottom", "neither"),
    ("InverseFunctionalObjectProperty(<u:r>)", "bottom", "neither"),
    ("IrreflexiveObjectProperty(<u:r>)", "bottom", "neither"),
    ("AsymmetricObjectProperty(<u:r>)", "bottom", "neither"),
    ("FunctionalDataProperty(<u:p>)", "bottom", "neither"),
    ("FunctionalObjectProperty(owl:bottomObjectProperty)", "both", "both"),
    ("IrreflexiveObjectProperty(owl:topObjectProperty)", "neither", "neither"),
    // only the property that relates everything
    ("ReflexiveObjectProperty(<u:r>)", "top", "neither"),
    ("ReflexiveObjectProperty(owl:bottomObjectProperty)", "neither", "neither"),
    // both
    ("SymmetricObjectProperty(<u:r>)", "both", "neither"),
    ("TransitiveObjectProperty(<u:r>)", "both", "neither"),
    ("SymmetricObjectProperty(owl:topObjectProperty)", "both", "both"),
    ("TransitiveObjectProperty(owl:bottomObjectProperty)", "both", "both"),
    ("TransitiveObjectProperty(ObjectInverseOf(<u:r>))", "both", "neither"),
];

#[rattlefmt::skip]
static DOMAINS: [AxiomRow; 12] = [
    // on the bottom side the property is empty, on the top side the class is everything
    ("ObjectPropertyDomain(<u:r> <u:A>)", "both", "neither"),
    ("ObjectPropertyDomain(<u:r> owl:Nothing)", "bottom", "neither"),
    ("ObjectPropertyDomain(<u:r> owl:Thing)", "both", "both"),
    ("ObjectPropertyRange(<u:r> <u:A>)", "both", "neither"),
    ("ObjectPropertyRange(owl:topObjectProperty <u:A>)", "top", "neither"),
    ("ObjectPropertyRange(owl:bottomObjectProperty <u:A>)", "both", "both"),
    ("DataPropertyDomain(<u:p> <u:A>)", "both", "neither"),
    ("DataPropertyDomain(<u:p> owl:Nothing)", "bottom", "neither"),
    ("DataPropertyRange(<u:p> <u:d>)", "both", "neither"),
    ("DataPropertyRange(<u:p> rdfs:Literal)", "both", "both"),
    // a datatype that isn't empty need not be everything
    ("DataPropertyRange(<u:p> xsd:integer)", "bottom", "neither"),
    ("DataPropertyRange(owl:topDataProperty <u:d>)", "top", "neither"),
];

#[rattlefmt::skip]
static DATA: [AxiomRow; 13] = [
    ("SubDataPropertyOf(<u:p> <u:q>)", "both", "neither"),
    ("SubDataPropertyOf(owl:topDataProperty <u:q>)", "top", "neither"),
    ("EquivalentDataProperties(<u:p> <u:q>)", "both", "neither"),
    ("EquivalentDataProperties(<u:p>)", "both", "both"),
    ("DisjointDataProperties(<u:p> <u:q>)", "bottom", "neither"),
    ("DisjointDataProperties(<u:p>)", "both", "both"),
    // both are empty, or both are everything
    ("DatatypeDefinition(<u:d> <u:e>)", "both", "neither"),
    ("DatatypeDefinition(<u:d> rdfs:Literal)", "top", "neither"),
    ("DatatypeDefinition(<u:d> DataComplementOf(rdfs:Literal))", "bottom", "neither"),
    ("DatatypeDefinition(<u:d> DataComplementOf(<u:e>))", "neither", "neither"),
    // a datatype that isn't empty need not be everything
    ("DatatypeDefinition(<u:d> xsd:integer)", "neither", "neither"),
    // nothing is sure of a datatype restricted by facets on the top side
    ("DatatypeDefinition(<u:d> DatatypeRestriction(<u:e> xsd:minInclusive \"1\"))", "bottom", "neither"),
    ("DatatypeDefinition(<u:d> DataOneOf(\"1\"))", "neither", "neither"),
];

#[rattlefmt::skip]
static KEYS: [AxiomRow; 8] = [
    // the class is empty, or one of the properties
    ("HasKey(<u:A> (<u:r>) (<u:p>))", "bottom", "neither"),
    ("HasKey(<u:A> () (<u:p>))", "bottom", "neither"),
    ("HasKey(<u:A> (<u:r>) ())", "bottom", "neither"),
    ("HasKey(owl:Thing () (<u:p>))", "bottom", "neither"),
    ("HasKey(<u:A> () ())", "bottom", "neither"),
    ("HasKey(owl:Nothing () ())", "both", "both"),
    ("HasKey(<u:A> (<u:r> owl:bottomObjectProperty) ())", "both", "both"),
    ("HasKey(<u:A> () (<u:p> owl:bottomDataProperty))", "both", "both"),
];

#[rattlefmt::skip]
static INDIVIDUALS: [AxiomRow; 14] = [
    // individuals are never replaced: only one alone is the same as itself, and different from no other
    ("SameIndividual(<u:i> <u:j>)", "neither", "neither"),
    ("SameIndividual(<u:i>)", "both", "both"),
    ("SameIndividual(<u:i> <u:i>)", "neither", "neither"),
    ("DifferentIndividuals(<u:i> _:x)", "neither", "neither"),
    ("DifferentIndividuals(<u:i>)", "both", "both"),
    // the class or the property is everything
    ("ClassAssertion(<u:A> <u:i>)", "top", "neither"),
    ("ClassAssertion(owl:Thing <u:i>)", "both", "both"),
    ("ObjectPropertyAssertion(<u:r> <u:i> <u:j>)", "top", "neither"),
    ("ObjectPropertyAssertion(ObjectInverseOf(<u:r>) <u:i> <u:j>)", "top", "neither"),
    ("DataPropertyAssertion(<u:p> <u:i> \"1\")", "top", "neither"),
    // the property is empty
    ("NegativeObjectPropertyAssertion(<u:r> <u:i> <u:j>)", "bottom", "neither"),
    ("NegativeDataPropertyAssertion(<u:p> <u:i> \"1\")", "bottom", "neither"),
    ("NegativeObjectPropertyAssertion(owl:bottomObjectProperty <u:i> <u:j>)", "both", "both"),
    ("NegativeDataPropertyAssertion(owl:topDataProperty <u:i> \"1\")", "neither", "neither"),
];

#[rattlefmt::skip]
static CLASSES_SEEN: [SeenAxiomRow; 14] = [
    // only the upper class can be everything
    ("SubClassOf(<u:A> <u:B>)", "Class(<u:A>)", "top"),
    // only the lower class can be empty
    ("SubClassOf(<u:A> <u:B>)", "Class(<u:B>)", "bottom"),
    ("EquivalentClasses(<u:A> <u:B>)", "Class(<u:A>)", "neither"),
    ("EquivalentClasses(<u:A> <u:B>)", "Class(<u:B>)", "neither"),
    // one that isn't empty is allowed, and two are not, wherever they stand
    ("DisjointClasses(<u:A> <u:B>)", "Class(<u:A>)", "bottom"),
    ("DisjointClasses(<u:A> <u:B>)", "Class(<u:B>)", "bottom"),
    ("DisjointClasses(<u:A> <u:B> <u:C>)", "Class(<u:B>)", "bottom"),
    ("DisjointClasses(<u:A> <u:B> <u:C>)", "Class(<u:A>) Class(<u:B>)", "neither"),
    ("DisjointClasses(<u:A> <u:B> <u:C>)", "Class(<u:A>) Class(<u:C>)", "neither"),
    ("DisjointClasses(<u:A> <u:B> <u:C>)", "Class(<u:B>) Class(<u:C>)", "neither"),
    // the class or a part is neither empty nor everything
    ("DisjointUnion(<u:A> <u:B>)", "Class(<u:A>)", "neither"),
    ("DisjointUnion(<u:A> <u:B>)", "Class(<u:B>)", "neither"),
    ("DisjointUnion(<u:A> <u:B> <u:C>)", "Class(<u:C>)", "neither"),
    ("DisjointUnion(<u:A> <u:B> owl:Nothing)", "Class(<u:C>)", "both"),
];

#[rattlefmt::skip]
static PROPERTIES_SEEN: [SeenAxiomRow; 14] = [
    ("SubObjectPropertyOf(<u:r> <u:s>)", "ObjectProperty(<u:r>)", "top"),
    ("SubObjectPropertyOf(<u:r> <u:s>)", "ObjectProperty(<u:s>)", "bottom"),
    // one link that isn't seen is empty on the bottom side, wherever it stands
    ("SubObjectPropertyOf(ObjectPropertyChain(<u:r> <u:s>) <u:t>)", "ObjectProperty(<u:r>)", "both"),
    ("SubObjectPropertyOf(ObjectPropertyChain(<u:r> <u:s>) <u:t>)", "ObjectProperty(<u:s>) ObjectProperty(<u:t>)", "bottom"),
    ("SubObjectPropertyOf(ObjectPropertyChain(<u:r> <u:s>) <u:t>)", "ObjectProperty(<u:r>) ObjectProperty(<u:s>)", "top"),
    ("EquivalentObjectProperties(<u:r> <u:s>)", "ObjectProperty(<u:s>)", "neither"),
    ("DisjointObjectProperties(<u:r> <u:s>)", "ObjectProperty(<u:s>)", "bottom"),
    ("InverseObjectProperties(<u:r> <u:s>)", "ObjectProperty(<u:r>)", "neither"),
    ("InverseObjectProperties(<u:r> <u:s>)", "ObjectProperty(<u:s>)", "neither"),
    ("SubDataPropertyOf(<u:p> <u:q>)", "DataProperty(<u:p>)", "top"),
    ("SubDataPropertyOf(<u:p> <u:q>)", "DataProperty(<u:q>)", "bottom"),
    ("EquivalentDataProperties(<u:p> <u:q>)", "DataProperty(<u:p>)", "neither"),
    ("DisjointDataProperties(<u:p> <u:q>)", "DataProperty(<u:p>)", "bottom"),
    ("DatatypeDefinition(<u:d> <u:e>)", "Datatype(<u:d>)", "neither"),
];

#[rattlefmt::skip]
static DOMAINS_SEEN: [SeenAxiomRow; 14] = [
    // only the class can be everything
    ("ObjectPropertyDomain(<u:r> <u:A>)", "ObjectProperty(<u:r>)", "top"),
    // only the property can be empty
    ("ObjectPropertyDomain(<u:r> <u:A>)", "Class(<u:A>)", "bottom"),
    ("ObjectPropertyRange(<u:r> <u:A>)", "ObjectProperty(<u:r>)", "top"),
    ("ObjectPropertyRange(<u:r> <u:A>)", "Class(<u:A>)", "bottom"),
    ("DataPropertyDomain(<u:p> <u:A>)", "DataProperty(<u:p>)", "top"),
    ("DataPropertyRange(<u:p> <u:d>)", "Datatype(<u:d>)", "bottom"),
    // what isn't seen is empty: a key property of either kind, or the class
    ("HasKey(<u:A> (<u:r>) (<u:p>))", "Class(<u:A>) ObjectProperty(<u:r>)", "bottom"),
    ("HasKey(<u:A> (<u:r>) (<u:p>))", "Class(<u:A>) DataProperty(<u:p>)", "bottom"),
    ("HasKey(<u:A> (<u:r>) (<u:p>))", "ObjectProperty(<u:r>) DataProperty(<u:p>)", "bottom"),
    // individuals don't count
    ("ClassAssertion(<u:A> <u:i>)", "NamedIndividual(<u:i>)", "top"),
    ("ClassAssertion(<u:A> <u:i>)", "Class(<u:A>)", "neither"),
    ("ObjectPropertyAssertion(<u:r> <u:i> <u:j>)", "NamedIndividual(<u:i>) NamedIndividual(<u:j>)", "top"),
    ("NegativeObjectPropertyAssertion(<u:r> <u:i> <u:j>)", "NamedIndividual(<u:i>)", "bottom"),
    // neither does the datatype of a value
    ("DataPropertyAssertion(<u:p> <u:i> \"1\"^^<u:d>)", "Datatype(<u:d>)", "top"),
];

#[test]
fn classes(rt: HostRuntime) -> Result<(), Fail> {
    let wrong = wrong_axiom(rt.alloc(), &CLASSES)?;
    assert!(rt; wrong == "", "{wrong}");
    Ok(())
}

#[test]
fn unions(rt: HostRuntime) -> Result<(), Fail> {
    let wrong = wrong_axiom(rt.alloc(), &UNIONS)?;
    assert!(rt; wrong == "", "{wrong}");
    Ok(())
}

#[test]
fn properties(rt: HostRuntime) -> Result<(), Fail> {
    let wrong = wrong_axiom(rt.alloc(), &PROPERTIES)?;
    assert!(rt; wrong == "", "{wrong}");
    Ok(())
}

#[test]
fn characteristics(rt: HostRuntime) -> Result<(), Fail> {
    let wrong = wrong_axiom(rt.alloc(), &CHARACTERISTICS)?;
    assert!(rt; wrong == "", "{wrong}");
    Ok(())
}

#[test]
fn domains(rt: HostRuntime) -> Result<(), Fail> {
    let wrong = wrong_axiom(rt.alloc(), &DOMAINS)?;
    assert!(rt; wrong == "", "{wrong}");
    Ok(())
}

#[test]
fn data(rt: HostRuntime) -> Result<(), Fail> {
    let wrong = wrong_axiom(rt.alloc(), &DATA)?;
    assert!(rt; wrong == "", "{wrong}");
    Ok(())
}

#[test]
fn keys(rt: HostRuntime) -> Result<(), Fail> {
    let wrong = wrong_axiom(rt.alloc(), &KEYS)?;
    assert!(rt; wrong == "", "{wrong}");
    Ok(())
}

#[test]
fn individuals(rt: HostRuntime) -> Result<(), Fail> {
    let wrong = wrong_axiom(rt.alloc(), &INDIVIDUALS)?;
    assert!(rt; wrong == "", "{wrong}");
    Ok(())
}

#[test]
fn classes_seen(rt: HostRuntime) -> Result<(), Fail> {
    let wrong = wrong_seen_axiom(rt.alloc(), &CLASSES_SEEN)?;
    assert!(rt; wrong == "", "{wrong}");
    Ok(())
}

#[test]
fn properties_seen(rt: HostRuntime) -> Result<(), Fail> {
    let wrong = wrong_seen_axiom(rt.alloc(), &PROPERTIES_SEEN)?;
    assert!(rt; wrong == "", "{wrong}");
    Ok(())
}

#[test]
fn domains_seen(rt: HostRuntime) -> Result<(), Fail> {
    let wrong = wrong_seen_axiom(rt.alloc(), &DOMAINS_SEEN)?;
    assert!(rt; wrong == "", "{wrong}");
    Ok(())
}
