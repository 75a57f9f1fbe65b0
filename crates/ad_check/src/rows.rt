ghost use Rattle.std.specs.Prelude.{◌≡◌, map};
ghost use Rattle.std.specs.Option.{option_copied};
ghost use Rattle.ad_check.specs.Machine.{lookup, entry_of, plain_table};
ghost use Rattle.ad_check.specs.Machine as machine;

use crate::items::Nonterminal::{
    Axiom, Class, Entity, Facet, Individual, Link, Literal, Name, Note, Number, Property, Range,
    Subject, Value,
};
use crate::items::Symbol::{
    Body, Equals, Filler, Full, Label, Left, Maybe, One, Right, Star, Until,
};
use crate::items::{Nonterminal, Production, Symbol};
use ad_write::keywords;

// An object property that begins with a keyword.
#[rattlefmt::skip]
static PROPERTY: [Production; 1] = [
    Production { word: keywords::OBJECT_INVERSE_OF, items: &[Left, One(Name), Right] },
];

// A chain of object properties.
#[rattlefmt::skip]
static CHAIN: [Production; 1] = [
    Production { word: keywords::OBJECT_PROPERTY_CHAIN, items: &[Left, One(Property), Until(Property)] },
];

// Data ranges.
#[rattlefmt::skip]
static RANGE: [Production; 5] = [
    Production { word: keywords::DATA_INTERSECTION_OF, items: &[Left, One(Range), Until(Range)] },
    Production { word: keywords::DATA_UNION_OF, items: &[Left, One(Range), Until(Range)] },
    Production { word: keywords::DATA_COMPLEMENT_OF, items: &[Left, One(Range), Right] },
    Production { word: keywords::DATA_ONE_OF, items: &[Left, One(Literal), Until(Literal)] },
    Production { word: keywords::DATATYPE_RESTRICTION, items: &[Left, One(Name), One(Facet), Until(Facet)] },
];

// Class expressions.
#[rattlefmt::skip]
static CLASS: [Production; 17] = [
    Production { word: keywords::OBJECT_INTERSECTION_OF, items: &[Left, One(Class), Until(Class)] },
    Production { word: keywords::OBJECT_UNION_OF, items: &[Left, One(Class), Until(Class)] },
    Production { word: keywords::OBJECT_COMPLEMENT_OF, items: &[Left, One(Class), Right] },
    Production { word: keywords::OBJECT_ONE_OF, items: &[Left, One(Individual), Until(Individual)] },
    Production { word: keywords::OBJECT_SOME_VALUES_FROM, items: &[Left, One(Property), One(Class), Right] },
    Production { word: keywords::OBJECT_ALL_VALUES_FROM, items: &[Left, One(Property), One(Class), Right] },
    Production { word: keywords::OBJECT_HAS_VALUE, items: &[Left, One(Property), One(Individual), Right] },
    Production { word: keywords::OBJECT_HAS_SELF, items: &[Left, One(Property), Right] },
    Production { word: keywords::OBJECT_MIN_CARDINALITY, items: &[Left, One(Number), One(Property), Maybe(Class), Right] },
    Production { word: keywords::OBJECT_MAX_CARDINALITY, items: &[Left, One(Number), One(Property), Maybe(Class), Right] },
    Production { word: keywords::OBJECT_EXACT_CARDINALITY, items: &[Left, One(Number), One(Property), Maybe(Class), Right] },
    Production { word: keywords::DATA_SOME_VALUES_FROM, items: &[Left, One(Name), Filler] },
    Production { word: keywords::DATA_ALL_VALUES_FROM, items: &[Left, One(Name), Filler] },
    Production { word: keywords::DATA_HAS_VALUE, items: &[Left, One(Name), One(Literal), Right] },
    Production { word: keywords::DATA_MIN_CARDINALITY, items: &[Left, One(Number), One(Name), Maybe(Range), Right] },
    Production { word: keywords::DATA_MAX_CARDINALITY, items: &[Left, One(Number), One(Name), Maybe(Range), Right] },
    Production { word: keywords::DATA_EXACT_CARDINALITY, items: &[Left, One(Number), One(Name), Maybe(Range), Right] },
];

// Annotations.
#[rattlefmt::skip]
static NOTE: [Production; 1] = [
    Production { word: keywords::ANNOTATION, items: &[Left, Star(Note), One(Name), One(Value), Right] },
];

// Entities.
#[rattlefmt::skip]
static ENTITY: [Production; 6] = [
    Production { word: keywords::CLASS, items: &[Left, One(Name), Right] },
    Production { word: keywords::DATATYPE, items: &[Left, One(Name), Right] },
    Production { word: keywords::OBJECT_PROPERTY, items: &[Left, One(Name), Right] },
    Production { word: keywords::DATA_PROPERTY, items: &[Left, One(Name), Right] },
    Production { word: keywords::ANNOTATION_PROPERTY, items: &[Left, One(Name), Right] },
    Production { word: keywords::NAMED_INDIVIDUAL, items: &[Left, One(Name), Right] },
];

// Logical axioms.
#[rattlefmt::skip]
static LOGICAL: [Production; 32] = [
    Production { word: keywords::SUB_CLASS_OF, items: &[Left, Star(Note), One(Class), One(Class), Right] },
    Production { word: keywords::EQUIVALENT_CLASSES, items: &[Left, Star(Note), One(Class), Until(Class)] },
    Production { word: keywords::DISJOINT_CLASSES, items: &[Left, Star(Note), One(Class), Until(Class)] },
    Production { word: keywords::DISJOINT_UNION, items: &[Left, Star(Note), One(Name), One(Class), Until(Class)] },
    Production { word: keywords::SUB_OBJECT_PROPERTY_OF, items: &[Left, Star(Note), One(Link), One(Property), Right] },
    Production { word: keywords::EQUIVALENT_OBJECT_PROPERTIES, items: &[Left, Star(Note), One(Property), Until(Property)] },
    Production { word: keywords::DISJOINT_OBJECT_PROPERTIES, items: &[Left, Star(Note), One(Property), Until(Property)] },
    Production { word: keywords::INVERSE_OBJECT_PROPERTIES, items: &[Left, Star(Note), One(Property), One(Property), Right] },
    Production { word: keywords::OBJECT_PROPERTY_DOMAIN, items: &[Left, Star(Note), One(Property), One(Class), Right] },
    Production { word: keywords::OBJECT_PROPERTY_RANGE, items: &[Left, Star(Note), One(Property), One(Class), Right] },
    Production { word: keywords::FUNCTIONAL_OBJECT_PROPERTY, items: &[Left, Star(Note), One(Property), Right] },
    Production { word: keywords::INVERSE_FUNCTIONAL_OBJECT_PROPERTY, items: &[Left, Star(Note), One(Property), Right] },
    Production { word: keywords::REFLEXIVE_OBJECT_PROPERTY, items: &[Left, Star(Note), One(Property), Right] },
    Production { word: keywords::IRREFLEXIVE_OBJECT_PROPERTY, items: &[Left, Star(Note), One(Property), Right] },
    Production { word: keywords::SYMMETRIC_OBJECT_PROPERTY, items: &[Left, Star(Note), One(Property), Right] },
    Production { word: keywords::ASYMMETRIC_OBJECT_PROPERTY, items: &[Left, Star(Note), One(Property), Right] },
    Production { word: keywords::TRANSITIVE_OBJECT_PROPERTY, items: &[Left, Star(Note), One(Property), Right] },
    Production { word: keywords::SUB_DATA_PROPERTY_OF, items: &[Left, Star(Note), One(Name), One(Name), Right] },
    Production { word: keywords::EQUIVALENT_DATA_PROPERTIES, items: &[Left, Star(Note), One(Name), Until(Name)] },
    Production { word: keywords::DISJOINT_DATA_PROPERTIES, items: &[Left, Star(Note), One(Name), Until(Name)] },
    Production { word: keywords::DATA_PROPERTY_DOMAIN, items: &[Left, Star(Note), One(Name), One(Class), Right] },
    Production { word: keywords::DATA_PROPERTY_RANGE, items: &[Left, Star(Note), One(Name), One(Range), Right] },
    Production { word: keywords::FUNCTIONAL_DATA_PROPERTY, items: &[Left, Star(Note), One(Name), Right] },
    Production { word: keywords::DATATYPE_DEFINITION, items: &[Left, Star(Note), One(Name), One(Range), Right] },
    Production { word: keywords::HAS_KEY, items: &[Left, Star(Note), One(Class), Left, Until(Property), Left, Until(Name), Right] },
    Production { word: keywords::SAME_INDIVIDUAL, items: &[Left, Star(Note), One(Individual), Until(Individual)] },
    Production { word: keywords::DIFFERENT_INDIVIDUALS, items: &[Left, Star(Note), One(Individual), Until(Individual)] },
    Production { word: keywords::CLASS_ASSERTION, items: &[Left, Star(Note), One(Class), One(Individual), Right] },
    Production { word: keywords::OBJECT_PROPERTY_ASSERTION, items: &[Left, Star(Note), One(Property), One(Individual), One(Individual), Right] },
    Production { word: keywords::NEGATIVE_OBJECT_PROPERTY_ASSERTION, items: &[Left, Star(Note), One(Property), One(Individual), One(Individual), Right] },
    Production { word: keywords::DATA_PROPERTY_ASSERTION, items: &[Left, Star(Note), One(Name), One(Individual), One(Literal), Right] },
    Production { word: keywords::NEGATIVE_DATA_PROPERTY_ASSERTION, items: &[Left, Star(Note), One(Name), One(Individual), One(Literal), Right] },
];

// Axioms that are carried.
#[rattlefmt::skip]
static CARRIED: [Production; 5] = [
    Production { word: keywords::DECLARATION, items: &[Left, Star(Note), One(Entity), Right] },
    Production { word: keywords::ANNOTATION_ASSERTION, items: &[Left, Star(Note), One(Name), One(Subject), One(Value), Right] },
    Production { word: keywords::SUB_ANNOTATION_PROPERTY_OF, items: &[Left, Star(Note), One(Name), One(Name), Right] },
    Production { word: keywords::ANNOTATION_PROPERTY_DOMAIN, items: &[Left, Star(Note), One(Name), One(Name), Right] },
    Production { word: keywords::ANNOTATION_PROPERTY_RANGE, items: &[Left, Star(Note), One(Name), One(Name), Right] },
];

// Prefix declarations.
#[rattlefmt::skip]
static PREFIX: [Production; 1] = [
    Production { word: keywords::PREFIX, items: &[Left, Label, Equals, Full, Right] },
];

// Ontologies.
#[rattlefmt::skip]
static ONTOLOGY: [Production; 1] = [
    Production { word: keywords::ONTOLOGY, items: &[Left, Maybe(Name), Maybe(Name), Body] },
];

// The row of a keyword.
fn row_of(rows: &[Production], word: &str) -> Option<&'static [Symbol]>
    ensures { option_copied result ≡ lookup (map entry_of rows.now) word.now }
{
    for row in rows {
        if row.word == word {
            return Some(row.items);
        }
    }
    None
}

// The row of a keyword at which a phrase may begin.
pub(crate) fn keyword_row(kind: Nonterminal, word: &str) -> Option<&'static [Symbol]>
    ensures { option_copied result ≡ lookup (plain_table kind) word.now }
{
    match kind {
        Nonterminal::Property => row_of(&PROPERTY, word),
        Nonterminal::Link => row_of(&PROPERTY, word).or(row_of(&CHAIN, word)),
        Nonterminal::Range => row_of(&RANGE, word),
        Nonterminal::Class => row_of(&CLASS, word),
        Nonterminal::Note => row_of(&NOTE, word),
        Nonterminal::Entity => row_of(&ENTITY, word),
        Nonterminal::Axiom => row_of(&LOGICAL, word).or(row_of(&CARRIED, word)),
        Nonterminal::Logical => row_of(&LOGICAL, word),
        Nonterminal::Prefix => row_of(&PREFIX, word),
        Nonterminal::Ontology => row_of(&ONTOLOGY, word),
        Nonterminal::Name
        | Nonterminal::Number
        | Nonterminal::Individual
        | Nonterminal::Literal
        | Nonterminal::Facet
        | Nonterminal::Subject
        | Nonterminal::Value
        | Nonterminal::Signed => None,
    }
}
