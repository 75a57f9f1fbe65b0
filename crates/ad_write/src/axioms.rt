ghost use Rattle.std.specs.Prelude.{◌≡◌, false, map};
ghost use Rattle.ad_tree.specs.declared.axioms.Axiom.TheVariants as axioms;
ghost use Rattle.ad_write.specs.Groups.{is_relation, is_characteristic, is_on_data};
ghost use Rattle.ad_write.specs.Canonical.{canon, canon_annotation, canon_axiom, canon_line};

use crate::keywords;
use crate::shapes::{Group, list, one, one_and_list, three, two};
use ad_lines::Pen;
use ad_tree::{Annotation, Axiom, Class, Noted, ObjProp, ObjProps, Words};

/// An axiom with its annotations.
pub fn write_noted<P: Pen>(pen: &mut P, noted: &Noted)
    ensures { P.writes pen.old pen.new (canon noted.now) }
{
    write_axiom(pen, noted.notes.as_slice(), &noted.axiom);
}

/// An axiom with its annotations, and the line's end.
pub fn write_ended<P: Pen>(pen: &mut P, noted: &Noted)
    ensures { P.writes pen.old pen.new (canon_line noted.now) }
{
    write_noted(pen, noted);
    pen.put(b"\n");
}

// An axiom with these annotations: for each kind of axiom its keyword and its arguments. The groups keep each match short.
// Here are axioms between classes, between object properties, and from object properties to classes.
#[rattlefmt::skip]
fn write_axiom<P: Pen>(pen: &mut P, notes: &[Annotation], axiom: &Axiom)
    ensures { P.writes pen.old pen.new (canon_axiom (map canon_annotation notes.now) «axiom».now) }
{
    match axiom {
        Axiom::SubClassOf(sub, sup) => two(pen, keywords::SUB_CLASS_OF, notes, sub, sup),
        Axiom::EquivalentClasses(classes) => list(pen, keywords::EQUIVALENT_CLASSES, notes, classes),
        Axiom::DisjointClasses(classes) => list(pen, keywords::DISJOINT_CLASSES, notes, classes),
        Axiom::DisjointUnion(class, parts) => one_and_list(pen, keywords::DISJOINT_UNION, notes, class, parts),
        Axiom::SubObjectPropertyOf(sub, sup) => two(pen, keywords::SUB_OBJECT_PROPERTY_OF, notes, sub, sup),
        Axiom::SubObjectPropertyChainOf(links, sup) => chain(pen, notes, links, sup),
        Axiom::EquivalentObjectProperties(properties) => list(pen, keywords::EQUIVALENT_OBJECT_PROPERTIES, notes, properties),
        Axiom::DisjointObjectProperties(properties) => list(pen, keywords::DISJOINT_OBJECT_PROPERTIES, notes, properties),
        Axiom::InverseObjectProperties(first, second) => two(pen, keywords::INVERSE_OBJECT_PROPERTIES, notes, first, second),
        Axiom::ObjectPropertyDomain(property, class) => two(pen, keywords::OBJECT_PROPERTY_DOMAIN, notes, property, class),
        Axiom::ObjectPropertyRange(property, class) => two(pen, keywords::OBJECT_PROPERTY_RANGE, notes, property, class),
        _ => write_characteristic(pen, notes, axiom),
    }
}

// The characteristics of object properties, and what comes behind them.
#[rattlefmt::skip]
fn write_characteristic<P: Pen>(pen: &mut P, notes: &[Annotation], axiom: &Axiom)
    requires relation { is_relation «axiom».now ≡ false }
    ensures { P.writes pen.old pen.new (canon_axiom (map canon_annotation notes.now) «axiom».now) }
{
    match axiom {
        Axiom::FunctionalObjectProperty(property) => one(pen, keywords::FUNCTIONAL_OBJECT_PROPERTY, notes, property),
        Axiom::InverseFunctionalObjectProperty(property) => one(pen, keywords::INVERSE_FUNCTIONAL_OBJECT_PROPERTY, notes, property),
        Axiom::ReflexiveObjectProperty(property) => one(pen, keywords::REFLEXIVE_OBJECT_PROPERTY, notes, property),
        Axiom::IrreflexiveObjectProperty(property) => one(pen, keywords::IRREFLEXIVE_OBJECT_PROPERTY, notes, property),
        Axiom::SymmetricObjectProperty(property) => one(pen, keywords::SYMMETRIC_OBJECT_PROPERTY, notes, property),
        Axiom::AsymmetricObjectProperty(property) => one(pen, keywords::ASYMMETRIC_OBJECT_PROPERTY, notes, property),
        Axiom::TransitiveObjectProperty(property) => one(pen, keywords::TRANSITIVE_OBJECT_PROPERTY, notes, property),
        _ => write_data_axiom(pen, notes, axiom),
    }
}

// Axioms on data properties, datatypes and keys, and what comes behind them.
#[rattlefmt::skip]
fn write_data_axiom<P: Pen>(pen: &mut P, notes: &[Annotation], axiom: &Axiom)
    requires relation { is_relation «axiom».now ≡ false }
    requires characteristic { is_characteristic «axiom».now ≡ false }
    ensures { P.writes pen.old pen.new (canon_axiom (map canon_annotation notes.now) «axiom».now) }
{
    match axiom {
        Axiom::SubDataPropertyOf(sub, sup) => two(pen, keywords::SUB_DATA_PROPERTY_OF, notes, sub, sup),
        Axiom::EquivalentDataProperties(properties) => list(pen, keywords::EQUIVALENT_DATA_PROPERTIES, notes, properties),
        Axiom::DisjointDataProperties(properties) => list(pen, keywords::DISJOINT_DATA_PROPERTIES, notes, properties),
        Axiom::DataPropertyDomain(property, class) => two(pen, keywords::DATA_PROPERTY_DOMAIN, notes, property, class),
        Axiom::DataPropertyRange(property, range) => two(pen, keywords::DATA_PROPERTY_RANGE, notes, property, range),
        Axiom::FunctionalDataProperty(property) => one(pen, keywords::FUNCTIONAL_DATA_PROPERTY, notes, property),
        Axiom::DatatypeDefinition(datatype, range) => two(pen, keywords::DATATYPE_DEFINITION, notes, datatype, range),
        Axiom::HasKey(class, objects, values) => key(pen, notes, class, objects, values),
        _ => write_assertion(pen, notes, axiom),
    }
}

// Assertions, declarations and annotation axioms.
#[rattlefmt::skip]
fn write_assertion<P: Pen>(pen: &mut P, notes: &[Annotation], axiom: &Axiom)
    requires relation { is_relation «axiom».now ≡ false }
    requires characteristic { is_characteristic «axiom».now ≡ false }
    requires data { is_on_data «axiom».now ≡ false }
    ensures { P.writes pen.old pen.new (canon_axiom (map canon_annotation notes.now) «axiom».now) }
{
    match axiom {
        Axiom::SameIndividual(individuals) => list(pen, keywords::SAME_INDIVIDUAL, notes, individuals),
        Axiom::DifferentIndividuals(individuals) => list(pen, keywords::DIFFERENT_INDIVIDUALS, notes, individuals),
        Axiom::ClassAssertion(class, individual) => two(pen, keywords::CLASS_ASSERTION, notes, class, individual),
        Axiom::ObjectPropertyAssertion(property, source, target) => three(pen, keywords::OBJECT_PROPERTY_ASSERTION, notes, property, source, target),
        Axiom::NegativeObjectPropertyAssertion(property, source, target) => three(pen, keywords::NEGATIVE_OBJECT_PROPERTY_ASSERTION, notes, property, source, target),
        Axiom::DataPropertyAssertion(property, source, target) => three(pen, keywords::DATA_PROPERTY_ASSERTION, notes, property, source, target),
        Axiom::NegativeDataPropertyAssertion(property, source, target) => three(pen, keywords::NEGATIVE_DATA_PROPERTY_ASSERTION, notes, property, source, target),
        Axiom::Declaration(entity) => one(pen, keywords::DECLARATION, notes, entity),
        Axiom::AnnotationAssertion(property, subject, value) => three(pen, keywords::ANNOTATION_ASSERTION, notes, property, subject, value),
        Axiom::SubAnnotationPropertyOf(sub, sup) => two(pen, keywords::SUB_ANNOTATION_PROPERTY_OF, notes, sub, sup),
        Axiom::AnnotationPropertyDomain(property, domain) => two(pen, keywords::ANNOTATION_PROPERTY_DOMAIN, notes, property, domain),
        Axiom::AnnotationPropertyRange(property, range) => two(pen, keywords::ANNOTATION_PROPERTY_RANGE, notes, property, range),
        _ => unreachable!(),
    }
}

// An axiom on a chain of properties: the chain is one argument.
fn chain<P: Pen>(pen: &mut P, notes: &[Annotation], links: &ObjProps, sup: &ObjProp)
    ensures { P.writes pen.old pen.new (canon_axiom (map canon_annotation notes.now) (axioms.SubObjectPropertyChainOf links.now sup.now)) }
{
    let links = Group {
        word: keywords::OBJECT_PROPERTY_CHAIN,
        members: links,
    };
    two(pen, keywords::SUB_OBJECT_PROPERTY_OF, notes, &links, sup);
}

// A key: its object properties are one argument, and its data properties another.
fn key<P: Pen>(pen: &mut P, notes: &[Annotation], class: &Class, objects: &ObjProps, values: &Words)
    ensures { P.writes pen.old pen.new (canon_axiom (map canon_annotation notes.now) (axioms.HasKey class.now objects.now values.now)) }
{
    let objects = Group {
        word: "",
        members: objects,
    };
    let values = Group {
        word: "",
        members: values,
    };
    three(pen, keywords::HAS_KEY, notes, class, &objects, &values);
}
