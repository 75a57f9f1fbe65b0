//! The table of data ranges.
use crate::columns::{Row, letters, wrong_range};
use ad_base::Side;
use ad_local::range_surely;
use ad_tree::{Many, Range, Seed};
use std::test::Fail;

#[rattlefmt::skip]
static RANGES: [Row; 23] = [
    ("<u:d>", "B", "TN", "-"),
    // a datatype that is built in has a value, and one of them has all
    ("rdfs:Literal", "TN", "TN", "TN"),
    ("xsd:integer", "N", "N", "N"),
    ("rdf:PlainLiteral", "N", "N", "N"),
    // on each side both operands are alike
    ("DataIntersectionOf(<u:d> <u:e>)", "B", "TN", "-"),
    ("DataIntersectionOf(rdfs:Literal rdfs:Literal)", "TN", "TN", "TN"),
    // one that isn't empty, where all others are everything
    ("DataIntersectionOf(xsd:integer <u:d>)", "B", "N", "-"),
    ("DataIntersectionOf(<u:d> xsd:integer)", "B", "N", "-"),
    ("DataIntersectionOf(rdfs:Literal xsd:integer)", "N", "N", "N"),
    // two that aren't empty need have no value in common
    ("DataIntersectionOf(xsd:integer xsd:string)", "-", "-", "-"),
    ("DataUnionOf(<u:d> <u:e>)", "B", "TN", "-"),
    ("DataUnionOf(xsd:integer <u:d>)", "N", "TN", "N"),
    ("DataUnionOf(<u:d> rdfs:Literal)", "TN", "TN", "TN"),
    // empty and everything change places
    ("DataComplementOf(<u:d>)", "TN", "B", "-"),
    ("DataComplementOf(rdfs:Literal)", "B", "B", "B"),
    ("DataComplementOf(DataComplementOf(rdfs:Literal))", "TN", "TN", "TN"),
    ("DataComplementOf(xsd:integer)", "-", "-", "-"),
    // values are never replaced, and neither is their datatype
    ("DataOneOf(\"1\")", "N", "N", "N"),
    ("DataOneOf(\"1\"^^<u:d>)", "N", "N", "N"),
    // a restriction by facets is empty where its datatype is, and no more is sure
    ("DatatypeRestriction(<u:d> xsd:minInclusive \"1\")", "B", "-", "-"),
    ("DatatypeRestriction(rdfs:Literal xsd:minInclusive \"1\")", "-", "-", "-"),
    ("DatatypeRestriction(xsd:integer xsd:minInclusive \"1\")", "-", "-", "-"),
    ("DataIntersectionOf(rdfs:Literal DataOneOf(\"1\") <u:d>)", "B", "N", "-"),
];

#[test]
fn ranges(rt: HostRuntime) -> Result<(), Fail> {
    let wrong = wrong_range(rt.alloc(), &RANGES)?;
    assert!(rt; wrong == "", "{wrong}");
    Ok(())
}

// No text spells an enumeration without values.
#[test]
fn enumeration_without_values(rt: HostRuntime) {
    let none = Range::OneOf(Many::new(rt.alloc()));
    let seen = Seed::new(rt.alloc());
    assert!(rt; letters(range_surely(Side::Bottom, &seen, &none)) == "-");
    assert!(rt; letters(range_surely(Side::Top, &seen, &none)) == "-");
}
