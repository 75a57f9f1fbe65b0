//! The table of class expressions.
use crate::columns::{Row, SeenRow, letters, wrong_class, wrong_seen};
use ad_base::Side;
use ad_local::class_surely;
use ad_tree::{Class, Many, Seed};
use std::test::Fail;

#[rattlefmt::skip]
static NAMES: [Row; 12] = [
    // a name outside is what the side says, and nothing is sure of a seen one
    ("<u:A>", "B", "TN", "-"),
    // built-in classes and properties are what they are, seen or not
    ("owl:Thing", "TN", "TN", "TN"),
    ("owl:Nothing", "B", "B", "B"),
    ("ObjectHasSelf(owl:topObjectProperty)", "TN", "TN", "TN"),
    ("ObjectHasSelf(owl:bottomObjectProperty)", "B", "B", "B"),
    ("DataHasValue(owl:topDataProperty \"1\")", "TN", "TN", "TN"),
    ("DataHasValue(owl:bottomDataProperty \"1\")", "B", "B", "B"),
    // an inverse is what its property is
    ("ObjectHasSelf(<u:r>)", "B", "TN", "-"),
    ("ObjectHasSelf(ObjectInverseOf(<u:r>))", "B", "TN", "-"),
    ("ObjectHasSelf(ObjectInverseOf(owl:bottomObjectProperty))", "B", "B", "B"),
    // an enumeration with a member isn't empty: individuals are never replaced
    ("ObjectOneOf(<u:i>)", "N", "N", "N"),
    ("ObjectOneOf(<u:i> _:x)", "N", "N", "N"),
];

#[rattlefmt::skip]
static INTERSECTIONS: [Row; 12] = [
    // on each side both operands are alike
    ("ObjectIntersectionOf(<u:A> <u:B>)", "B", "TN", "-"),
    // one empty operand is enough; one that is everything isn't
    ("ObjectIntersectionOf(<u:A> owl:Nothing)", "B", "B", "B"),
    ("ObjectIntersectionOf(owl:Nothing <u:A>)", "B", "B", "B"),
    ("ObjectIntersectionOf(owl:Thing <u:A>)", "B", "TN", "-"),
    ("ObjectIntersectionOf(owl:Thing owl:Thing)", "TN", "TN", "TN"),
    // one that isn't empty, wherever it stands, where all others are everything
    ("ObjectIntersectionOf(ObjectOneOf(<u:i>) owl:Thing)", "N", "N", "N"),
    ("ObjectIntersectionOf(owl:Thing ObjectOneOf(<u:i>))", "N", "N", "N"),
    ("ObjectIntersectionOf(ObjectOneOf(<u:i>) <u:A>)", "B", "N", "-"),
    ("ObjectIntersectionOf(owl:Thing ObjectOneOf(<u:i>) <u:A>)", "B", "N", "-"),
    // two that aren't empty need have no member in common, nor need the same one at two positions
    ("ObjectIntersectionOf(ObjectOneOf(<u:i>) ObjectOneOf(<u:j>))", "-", "-", "-"),
    ("ObjectIntersectionOf(ObjectOneOf(<u:i>) ObjectOneOf(<u:i>))", "-", "-", "-"),
    ("ObjectIntersectionOf(ObjectOneOf(<u:i>) owl:Thing ObjectOneOf(<u:i>))", "-", "-", "-"),
];

#[rattlefmt::skip]
static UNIONS: [Row; 12] = [
    ("ObjectUnionOf(<u:A> <u:B>)", "B", "TN", "-"),
    // one operand that is everything is enough; one empty operand isn't
    ("ObjectUnionOf(<u:A> owl:Thing)", "TN", "TN", "TN"),
    ("ObjectUnionOf(owl:Thing <u:A>)", "TN", "TN", "TN"),
    ("ObjectUnionOf(owl:Nothing <u:A>)", "B", "TN", "-"),
    ("ObjectUnionOf(owl:Nothing owl:Nothing)", "B", "B", "B"),
    // one operand that isn't empty is enough
    ("ObjectUnionOf(<u:A> ObjectOneOf(<u:i>))", "N", "TN", "N"),
    ("ObjectUnionOf(ObjectOneOf(<u:i>) owl:Nothing)", "N", "N", "N"),
    // empty and everything change places
    ("ObjectComplementOf(<u:A>)", "TN", "B", "-"),
    ("ObjectComplementOf(owl:Thing)", "B", "B", "B"),
    ("ObjectComplementOf(owl:Nothing)", "TN", "TN", "TN"),
    // outside something that isn't empty there need be nothing, and need be something
    ("ObjectComplementOf(ObjectOneOf(<u:i>))", "-", "-", "-"),
    ("ObjectComplementOf(ObjectComplementOf(ObjectOneOf(<u:i>)))", "-", "-", "-"),
];

#[rattlefmt::skip]
static RESTRICTIONS: [Row; 20] = [
    // some: an empty property or class makes it empty
    ("ObjectSomeValuesFrom(<u:r> <u:A>)", "B", "TN", "-"),
    ("ObjectSomeValuesFrom(<u:r> owl:Nothing)", "B", "B", "B"),
    ("ObjectSomeValuesFrom(owl:bottomObjectProperty <u:A>)", "B", "B", "B"),
    // everything where the property relates all to all and the class isn't empty
    ("ObjectSomeValuesFrom(<u:r> owl:Thing)", "B", "TN", "-"),
    ("ObjectSomeValuesFrom(owl:topObjectProperty <u:A>)", "B", "TN", "-"),
    ("ObjectSomeValuesFrom(owl:topObjectProperty owl:Thing)", "TN", "TN", "TN"),
    ("ObjectSomeValuesFrom(owl:topObjectProperty ObjectOneOf(<u:i>))", "TN", "TN", "TN"),
    ("ObjectSomeValuesFrom(<u:r> ObjectOneOf(<u:i>))", "B", "TN", "-"),
    ("ObjectSomeValuesFrom(owl:topObjectProperty ObjectComplementOf(ObjectOneOf(<u:i>)))", "-", "-", "-"),
    // all: on the bottom side the property is empty, on the top side the class is everything
    ("ObjectAllValuesFrom(<u:r> <u:A>)", "TN", "TN", "-"),
    // empty where the property is everything and the class empty
    ("ObjectAllValuesFrom(<u:r> owl:Nothing)", "TN", "B", "-"),
    ("ObjectAllValuesFrom(owl:topObjectProperty <u:A>)", "B", "TN", "-"),
    ("ObjectAllValuesFrom(owl:topObjectProperty owl:Nothing)", "B", "B", "B"),
    ("ObjectAllValuesFrom(<u:r> owl:Thing)", "TN", "TN", "TN"),
    ("ObjectAllValuesFrom(owl:bottomObjectProperty <u:A>)", "TN", "TN", "TN"),
    // a class that isn't empty need not be everything
    ("ObjectAllValuesFrom(owl:topObjectProperty ObjectOneOf(<u:i>))", "-", "-", "-"),
    // the property alone counts
    ("ObjectHasValue(<u:r> <u:i>)", "B", "TN", "-"),
    ("ObjectHasValue(owl:topObjectProperty <u:i>)", "TN", "TN", "TN"),
    ("ObjectHasSelf(<u:r>)", "B", "TN", "-"),
    ("DataHasValue(<u:p> \"1\"^^<u:d>)", "B", "TN", "-"),
];

#[rattlefmt::skip]
static AT_LEAST: [Row; 14] = [
    // at least none is everything, seen or not
    ("ObjectMinCardinality(0 <u:r> <u:A>)", "TN", "TN", "TN"),
    ("ObjectMinCardinality(0 <u:r>)", "TN", "TN", "TN"),
    ("ObjectMinCardinality(0 owl:bottomObjectProperty owl:Nothing)", "TN", "TN", "TN"),
    // at least one is as some
    ("ObjectMinCardinality(1 <u:r> <u:A>)", "B", "TN", "-"),
    ("ObjectMinCardinality(1 <u:r>)", "B", "TN", "-"),
    ("ObjectMinCardinality(1 <u:r> owl:Nothing)", "B", "B", "B"),
    ("ObjectMinCardinality(1 owl:topObjectProperty)", "TN", "TN", "TN"),
    ("ObjectMinCardinality(1 owl:topObjectProperty ObjectOneOf(<u:i>))", "TN", "TN", "TN"),
    // two of everything need not be there
    ("ObjectMinCardinality(2 <u:r> <u:A>)", "B", "-", "-"),
    ("ObjectMinCardinality(2 <u:r>)", "B", "-", "-"),
    ("ObjectMinCardinality(2 owl:topObjectProperty owl:Thing)", "-", "-", "-"),
    ("ObjectMinCardinality(2 owl:topObjectProperty ObjectOneOf(<u:i>))", "-", "-", "-"),
    ("ObjectMinCardinality(2 owl:bottomObjectProperty)", "B", "B", "B"),
    ("ObjectMinCardinality(4294967295 <u:r> owl:Nothing)", "B", "B", "B"),
];

#[rattlefmt::skip]
static AT_MOST: [Row; 14] = [
    // at most none: everything where the property or the class is empty
    ("ObjectMaxCardinality(0 <u:r> <u:A>)", "TN", "B", "-"),
    ("ObjectMaxCardinality(0 <u:r>)", "TN", "B", "-"),
    ("ObjectMaxCardinality(0 <u:r> owl:Nothing)", "TN", "TN", "TN"),
    ("ObjectMaxCardinality(0 owl:topObjectProperty <u:A>)", "TN", "B", "-"),
    // empty where the property is everything and the class isn't empty
    ("ObjectMaxCardinality(0 owl:topObjectProperty owl:Thing)", "B", "B", "B"),
    ("ObjectMaxCardinality(0 owl:topObjectProperty ObjectOneOf(<u:i>))", "B", "B", "B"),
    ("ObjectMaxCardinality(0 <u:r> ObjectOneOf(<u:i>))", "TN", "B", "-"),
    ("ObjectMaxCardinality(0 owl:topObjectProperty ObjectComplementOf(ObjectOneOf(<u:i>)))", "-", "-", "-"),
    // at most one or two: never empty
    ("ObjectMaxCardinality(1 <u:r> <u:A>)", "TN", "-", "-"),
    ("ObjectMaxCardinality(1 <u:r>)", "TN", "-", "-"),
    ("ObjectMaxCardinality(1 owl:topObjectProperty owl:Thing)", "-", "-", "-"),
    ("ObjectMaxCardinality(1 owl:topObjectProperty ObjectOneOf(<u:i>))", "-", "-", "-"),
    ("ObjectMaxCardinality(2 <u:r> <u:A>)", "TN", "-", "-"),
    ("ObjectMaxCardinality(2 owl:bottomObjectProperty)", "TN", "TN", "TN"),
];

#[rattlefmt::skip]
static EXACTLY: [Row; 12] = [
    // exactly none is as at most none
    ("ObjectExactCardinality(0 <u:r> <u:A>)", "TN", "B", "-"),
    ("ObjectExactCardinality(0 <u:r>)", "TN", "B", "-"),
    ("ObjectExactCardinality(0 owl:bottomObjectProperty)", "TN", "TN", "TN"),
    ("ObjectExactCardinality(0 owl:topObjectProperty owl:Thing)", "B", "B", "B"),
    ("ObjectExactCardinality(0 owl:topObjectProperty ObjectOneOf(<u:i>))", "B", "B", "B"),
    // exactly one or two: empty where the property or the class is, and no more is sure
    ("ObjectExactCardinality(1 <u:r> <u:A>)", "B", "-", "-"),
    ("ObjectExactCardinality(1 <u:r>)", "B", "-", "-"),
    ("ObjectExactCardinality(1 owl:topObjectProperty owl:Thing)", "-", "-", "-"),
    ("ObjectExactCardinality(1 owl:topObjectProperty ObjectOneOf(<u:i>))", "-", "-", "-"),
    ("ObjectExactCardinality(1 <u:r> owl:Nothing)", "B", "B", "B"),
    ("ObjectExactCardinality(2 <u:r> <u:A>)", "B", "-", "-"),
    ("ObjectExactCardinality(2 owl:bottomObjectProperty)", "B", "B", "B"),
];

// Restrictions of data properties, by the same rows as those of object properties.
#[rattlefmt::skip]
static DATA: [Row; 25] = [
    ("DataSomeValuesFrom(<u:p> <u:d>)", "B", "TN", "-"),
    ("DataSomeValuesFrom(<u:p> rdfs:Literal)", "B", "TN", "-"),
    ("DataSomeValuesFrom(owl:topDataProperty rdfs:Literal)", "TN", "TN", "TN"),
    // a datatype that is built in has a value; what its facets leave of it need not
    ("DataSomeValuesFrom(<u:p> xsd:integer)", "B", "TN", "-"),
    ("DataSomeValuesFrom(owl:topDataProperty xsd:integer)", "TN", "TN", "TN"),
    ("DataSomeValuesFrom(owl:topDataProperty DataOneOf(\"1\"))", "TN", "TN", "TN"),
    ("DataSomeValuesFrom(owl:topDataProperty DatatypeRestriction(xsd:integer xsd:minInclusive \"1\"))", "-", "-", "-"),
    ("DataAllValuesFrom(<u:p> <u:d>)", "TN", "TN", "-"),
    ("DataAllValuesFrom(<u:p> xsd:integer)", "TN", "-", "-"),
    // empty where the property is everything and the range empty
    ("DataAllValuesFrom(owl:topDataProperty <u:d>)", "B", "TN", "-"),
    ("DataAllValuesFrom(owl:topDataProperty DatatypeRestriction(<u:d> xsd:minInclusive \"1\"))", "B", "-", "-"),
    ("DataHasValue(<u:p> \"1\")", "B", "TN", "-"),
    ("DataMinCardinality(0 <u:p> <u:d>)", "TN", "TN", "TN"),
    ("DataMinCardinality(1 <u:p>)", "B", "TN", "-"),
    ("DataMinCardinality(1 owl:topDataProperty xsd:integer)", "TN", "TN", "TN"),
    ("DataMinCardinality(2 <u:p> <u:d>)", "B", "-", "-"),
    ("DataMinCardinality(2 owl:topDataProperty xsd:integer)", "-", "-", "-"),
    ("DataMaxCardinality(0 <u:p>)", "TN", "B", "-"),
    ("DataMaxCardinality(0 owl:topDataProperty xsd:string)", "B", "B", "B"),
    ("DataMaxCardinality(1 <u:p> <u:d>)", "TN", "-", "-"),
    ("DataExactCardinality(0 <u:p> <u:d>)", "TN", "B", "-"),
    ("DataExactCardinality(0 owl:topDataProperty xsd:integer)", "B", "B", "B"),
    ("DataExactCardinality(0 owl:bottomDataProperty)", "TN", "TN", "TN"),
    ("DataExactCardinality(1 <u:p>)", "B", "-", "-"),
    ("DataExactCardinality(2 <u:p> <u:d>)", "B", "-", "-"),
];

#[rattlefmt::skip]
static OPERANDS_SEEN: [SeenRow; 11] = [
    // an intersection needs one empty operand, or all that are everything, wherever the seen one stands
    ("ObjectIntersectionOf(<u:A> <u:B>)", "Class(<u:A>)", "B", "-"),
    ("ObjectIntersectionOf(<u:A> <u:B>)", "Class(<u:B>)", "B", "-"),
    ("ObjectIntersectionOf(<u:A> <u:B> <u:C>)", "Class(<u:A>) Class(<u:C>)", "B", "-"),
    ("ObjectIntersectionOf(ObjectOneOf(<u:i>) <u:A> <u:B>)", "Class(<u:B>)", "B", "-"),
    // a union needs all empty, or one that is everything, or one that isn't empty
    ("ObjectUnionOf(<u:A> <u:B>)", "Class(<u:A>)", "-", "TN"),
    ("ObjectUnionOf(<u:A> <u:B>)", "Class(<u:B>)", "-", "TN"),
    ("ObjectUnionOf(<u:A> <u:B> <u:C>)", "Class(<u:A>) Class(<u:C>)", "-", "TN"),
    ("ObjectUnionOf(<u:A> <u:B> ObjectOneOf(<u:i>))", "Class(<u:A>)", "N", "TN"),
    // another name is seen
    ("ObjectComplementOf(<u:A>)", "Class(<u:B>)", "TN", "B"),
    // an individual of the same name is seen, and not the class
    ("<u:A>", "NamedIndividual(<u:A>)", "B", "TN"),
    // a data property of the same name is seen, and not the object property
    ("ObjectHasSelf(<u:r>)", "DataProperty(<u:r>)", "B", "TN"),
];

#[rattlefmt::skip]
static RESTRICTIONS_SEEN: [SeenRow; 10] = [
    // the class alone makes it empty on the bottom side, and isn't enough on the top side
    ("ObjectSomeValuesFrom(<u:r> <u:A>)", "ObjectProperty(<u:r>)", "B", "-"),
    // the property alone, likewise
    ("ObjectSomeValuesFrom(<u:r> <u:A>)", "Class(<u:A>)", "B", "-"),
    ("ObjectSomeValuesFrom(<u:r> ObjectOneOf(<u:i>))", "ObjectProperty(<u:r>)", "-", "-"),
    // on the bottom side the property isn't empty and the class isn't everything, on the top side the class is
    ("ObjectAllValuesFrom(<u:r> <u:A>)", "ObjectProperty(<u:r>)", "-", "TN"),
    // on the bottom side the property is empty, on the top side neither is the property empty nor the class everything
    ("ObjectAllValuesFrom(<u:r> <u:A>)", "Class(<u:A>)", "TN", "-"),
    // the individual doesn't count
    ("ObjectHasValue(<u:r> <u:i>)", "NamedIndividual(<u:i>)", "B", "TN"),
    ("ObjectHasValue(<u:r> <u:i>)", "ObjectProperty(<u:r>)", "-", "-"),
    ("DataSomeValuesFrom(<u:p> <u:d>)", "Datatype(<u:d>)", "B", "-"),
    ("DataSomeValuesFrom(<u:p> xsd:integer)", "DataProperty(<u:p>)", "-", "-"),
    ("DataAllValuesFrom(<u:p> <u:d>)", "DataProperty(<u:p>)", "-", "TN"),
];

#[rattlefmt::skip]
static CARDINALITIES_SEEN: [SeenRow; 13] = [
    ("ObjectMinCardinality(0 <u:r> <u:A>)", "Class(<u:A>)", "TN", "TN"),
    // the one that isn't seen makes it empty on the bottom side, and isn't enough on the top side
    ("ObjectMinCardinality(1 <u:r> <u:A>)", "ObjectProperty(<u:r>)", "B", "-"),
    ("ObjectMinCardinality(1 <u:r> <u:A>)", "Class(<u:A>)", "B", "-"),
    ("ObjectMinCardinality(2 <u:r> <u:A>)", "ObjectProperty(<u:r>)", "B", "-"),
    // without a class the seen property is all that could be empty
    ("ObjectMinCardinality(2 <u:r>)", "ObjectProperty(<u:r>)", "-", "-"),
    // the one that isn't seen makes it everything on the bottom side, and isn't enough on the top side
    ("ObjectMaxCardinality(0 <u:r> <u:A>)", "ObjectProperty(<u:r>)", "TN", "-"),
    ("ObjectMaxCardinality(0 <u:r> <u:A>)", "Class(<u:A>)", "TN", "-"),
    ("ObjectMaxCardinality(1 <u:r> <u:A>)", "Class(<u:A>)", "TN", "-"),
    ("ObjectMaxCardinality(2 <u:r> <u:A>)", "ObjectProperty(<u:r>)", "TN", "-"),
    ("ObjectExactCardinality(0 <u:r> <u:A>)", "ObjectProperty(<u:r>)", "TN", "-"),
    // as at least one on the bottom side, and never everything
    ("ObjectExactCardinality(1 <u:r> <u:A>)", "ObjectProperty(<u:r>)", "B", "-"),
    ("ObjectExactCardinality(2 <u:r> <u:A>)", "Class(<u:A>)", "B", "-"),
    ("DataMaxCardinality(0 <u:p> <u:d>)", "DataProperty(<u:p>)", "TN", "-"),
];

#[test]
fn names(rt: HostRuntime) -> Result<(), Fail> {
    let wrong = wrong_class(rt.alloc(), &NAMES)?;
    assert!(rt; wrong == "", "{wrong}");
    Ok(())
}

// No text spells an enumeration without members.
#[test]
fn enumeration_without_members(rt: HostRuntime) {
    let none = Class::OneOf(Many::new(rt.alloc()));
    let seen = Seed::new(rt.alloc());
    assert!(rt; letters(class_surely(Side::Bottom, &seen, &none)) == "-");
    assert!(rt; letters(class_surely(Side::Top, &seen, &none)) == "-");
}

#[test]
fn intersections(rt: HostRuntime) -> Result<(), Fail> {
    let wrong = wrong_class(rt.alloc(), &INTERSECTIONS)?;
    assert!(rt; wrong == "", "{wrong}");
    Ok(())
}

#[test]
fn unions(rt: HostRuntime) -> Result<(), Fail> {
    let wrong = wrong_class(rt.alloc(), &UNIONS)?;
    assert!(rt; wrong == "", "{wrong}");
    Ok(())
}

#[test]
fn restrictions(rt: HostRuntime) -> Result<(), Fail> {
    let wrong = wrong_class(rt.alloc(), &RESTRICTIONS)?;
    assert!(rt; wrong == "", "{wrong}");
    Ok(())
}

#[test]
fn at_least(rt: HostRuntime) -> Result<(), Fail> {
    let wrong = wrong_class(rt.alloc(), &AT_LEAST)?;
    assert!(rt; wrong == "", "{wrong}");
    Ok(())
}

#[test]
fn at_most(rt: HostRuntime) -> Result<(), Fail> {
    let wrong = wrong_class(rt.alloc(), &AT_MOST)?;
    assert!(rt; wrong == "", "{wrong}");
    Ok(())
}

#[test]
fn exactly(rt: HostRuntime) -> Result<(), Fail> {
    let wrong = wrong_class(rt.alloc(), &EXACTLY)?;
    assert!(rt; wrong == "", "{wrong}");
    Ok(())
}

#[test]
fn data(rt: HostRuntime) -> Result<(), Fail> {
    let wrong = wrong_class(rt.alloc(), &DATA)?;
    assert!(rt; wrong == "", "{wrong}");
    Ok(())
}

#[test]
fn operands_seen(rt: HostRuntime) -> Result<(), Fail> {
    let wrong = wrong_seen(rt.alloc(), &OPERANDS_SEEN)?;
    assert!(rt; wrong == "", "{wrong}");
    Ok(())
}

#[test]
fn restrictions_seen(rt: HostRuntime) -> Result<(), Fail> {
    let wrong = wrong_seen(rt.alloc(), &RESTRICTIONS_SEEN)?;
    assert!(rt; wrong == "", "{wrong}");
    Ok(())
}

#[test]
fn cardinalities_seen(rt: HostRuntime) -> Result<(), Fail> {
    let wrong = wrong_seen(rt.alloc(), &CARDINALITIES_SEEN)?;
    assert!(rt; wrong == "", "{wrong}");
    Ok(())
}
