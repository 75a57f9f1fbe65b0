ghost use Rattle.std.specs.Prelude.{◌≡◌, ◌↔◌, IfOk, IsTrue};

use crate::classes::{Class, Classes, copy_classes};
use crate::copies::{all_three, both};
use crate::literals::Literal;
use crate::names::{
    Individual, Individuals, ObjProp, ObjProps, Words, copy_individuals, copy_properties,
    copy_words,
};
use crate::notes::{Annotations, Subject, Value, copy_annotations};
use crate::ranges::Range;
use ad_base::{Memory, Word};
use ad_entity::Entity;
use std::alloc::Global;

/// An axiom (sections 9 and 10 of the Structural Specification), named by its keyword, with its
/// arguments in the order of the functional-style syntax.
#[derive(Drop, PartialEq, Eq, PartialOrd, Ord, Hash)]
pub enum Axiom {
    SubClassOf(Class, Class),
    EquivalentClasses(Classes),
    DisjointClasses(Classes),
    DisjointUnion(Word, Classes),
    SubObjectPropertyOf(ObjProp, ObjProp),
    SubObjectPropertyChainOf(ObjProps, ObjProp),
    EquivalentObjectProperties(ObjProps),
    DisjointObjectProperties(ObjProps),
    InverseObjectProperties(ObjProp, ObjProp),
    ObjectPropertyDomain(ObjProp, Class),
    ObjectPropertyRange(ObjProp, Class),
    FunctionalObjectProperty(ObjProp),
    InverseFunctionalObjectProperty(ObjProp),
    ReflexiveObjectProperty(ObjProp),
    IrreflexiveObjectProperty(ObjProp),
    SymmetricObjectProperty(ObjProp),
    AsymmetricObjectProperty(ObjProp),
    TransitiveObjectProperty(ObjProp),
    SubDataPropertyOf(Word, Word),
    EquivalentDataProperties(Words),
    DisjointDataProperties(Words),
    DataPropertyDomain(Word, Class),
    DataPropertyRange(Word, Range),
    FunctionalDataProperty(Word),
    DatatypeDefinition(Word, Range),
    HasKey(Class, ObjProps, Words),
    SameIndividual(Individuals),
    DifferentIndividuals(Individuals),
    ClassAssertion(Class, Individual),
    ObjectPropertyAssertion(ObjProp, Individual, Individual),
    NegativeObjectPropertyAssertion(ObjProp, Individual, Individual),
    DataPropertyAssertion(Word, Individual, Literal),
    NegativeDataPropertyAssertion(Word, Individual, Literal),
    Declaration(Entity),
    AnnotationAssertion(Word, Subject, Value),
    SubAnnotationPropertyOf(Word, Word),
    AnnotationPropertyDomain(Word, Word),
    AnnotationPropertyRange(Word, Word),
}

impl Axiom {
    /// Another axiom, the same: one form of axiom a line.
    #[rattlefmt::skip]
    pub fn copy(&self, alloc: Global) -> Result<Axiom, Memory>
        ensures { IfOk result (λ copy. copy ≡ self.now) }
    {
        match self {
            Axiom::SubClassOf(lower, upper) => both(lower.copy(alloc), upper.copy(alloc)).map(|(lower, upper)| Axiom::SubClassOf(lower, upper)),
            Axiom::EquivalentClasses(classes) => copy_classes(alloc, classes).map(|classes| Axiom::EquivalentClasses(classes)),
            Axiom::DisjointClasses(classes) => copy_classes(alloc, classes).map(|classes| Axiom::DisjointClasses(classes)),
            Axiom::DisjointUnion(class, parts) => both(class.copy(alloc), copy_classes(alloc, parts)).map(|(class, parts)| Axiom::DisjointUnion(class, parts)),
            Axiom::SubObjectPropertyOf(lower, upper) => both(lower.copy(alloc), upper.copy(alloc)).map(|(lower, upper)| Axiom::SubObjectPropertyOf(lower, upper)),
            Axiom::SubObjectPropertyChainOf(chain, upper) => both(copy_properties(alloc, chain), upper.copy(alloc)).map(|(chain, upper)| Axiom::SubObjectPropertyChainOf(chain, upper)),
            Axiom::EquivalentObjectProperties(properties) => copy_properties(alloc, properties).map(|properties| Axiom::EquivalentObjectProperties(properties)),
            Axiom::DisjointObjectProperties(properties) => copy_properties(alloc, properties).map(|properties| Axiom::DisjointObjectProperties(properties)),
            Axiom::InverseObjectProperties(first, second) => both(first.copy(alloc), second.copy(alloc)).map(|(first, second)| Axiom::InverseObjectProperties(first, second)),
            Axiom::ObjectPropertyDomain(property, class) => both(property.copy(alloc), class.copy(alloc)).map(|(property, class)| Axiom::ObjectPropertyDomain(property, class)),
            Axiom::ObjectPropertyRange(property, class) => both(property.copy(alloc), class.copy(alloc)).map(|(property, class)| Axiom::ObjectPropertyRange(property, class)),
            Axiom::FunctionalObjectProperty(property) => property.copy(alloc).map(|property| Axiom::FunctionalObjectProperty(property)),
            Axiom::InverseFunctionalObjectProperty(property) => property.copy(alloc).map(|property| Axiom::InverseFunctionalObjectProperty(property)),
            Axiom::ReflexiveObjectProperty(property) => property.copy(alloc).map(|property| Axiom::ReflexiveObjectProperty(property)),
            Axiom::IrreflexiveObjectProperty(property) => property.copy(alloc).map(|property| Axiom::IrreflexiveObjectProperty(property)),
            Axiom::SymmetricObjectProperty(property) => property.copy(alloc).map(|property| Axiom::SymmetricObjectProperty(property)),
            Axiom::AsymmetricObjectProperty(property) => property.copy(alloc).map(|property| Axiom::AsymmetricObjectProperty(property)),
            Axiom::TransitiveObjectProperty(property) => property.copy(alloc).map(|property| Axiom::TransitiveObjectProperty(property)),
            Axiom::SubDataPropertyOf(lower, upper) => both(lower.copy(alloc), upper.copy(alloc)).map(|(lower, upper)| Axiom::SubDataPropertyOf(lower, upper)),
            Axiom::EquivalentDataProperties(properties) => copy_words(alloc, properties).map(|properties| Axiom::EquivalentDataProperties(properties)),
            Axiom::DisjointDataProperties(properties) => copy_words(alloc, properties).map(|properties| Axiom::DisjointDataProperties(properties)),
            Axiom::DataPropertyDomain(property, class) => both(property.copy(alloc), class.copy(alloc)).map(|(property, class)| Axiom::DataPropertyDomain(property, class)),
            Axiom::DataPropertyRange(property, range) => both(property.copy(alloc), range.copy(alloc)).map(|(property, range)| Axiom::DataPropertyRange(property, range)),
            Axiom::FunctionalDataProperty(property) => property.copy(alloc).map(|property| Axiom::FunctionalDataProperty(property)),
            Axiom::DatatypeDefinition(datatype, range) => both(datatype.copy(alloc), range.copy(alloc)).map(|(datatype, range)| Axiom::DatatypeDefinition(datatype, range)),
            Axiom::HasKey(class, objects, values) => all_three(class.copy(alloc), copy_properties(alloc, objects), copy_words(alloc, values)).map(|(class, objects, values)| Axiom::HasKey(class, objects, values)),
            Axiom::SameIndividual(individuals) => copy_individuals(alloc, individuals).map(|individuals| Axiom::SameIndividual(individuals)),
            Axiom::DifferentIndividuals(individuals) => copy_individuals(alloc, individuals).map(|individuals| Axiom::DifferentIndividuals(individuals)),
            Axiom::ClassAssertion(class, individual) => both(class.copy(alloc), individual.copy(alloc)).map(|(class, individual)| Axiom::ClassAssertion(class, individual)),
            Axiom::ObjectPropertyAssertion(property, source, target) => all_three(property.copy(alloc), source.copy(alloc), target.copy(alloc)).map(|(property, source, target)| Axiom::ObjectPropertyAssertion(property, source, target)),
            Axiom::NegativeObjectPropertyAssertion(property, source, target) => all_three(property.copy(alloc), source.copy(alloc), target.copy(alloc)).map(|(property, source, target)| Axiom::NegativeObjectPropertyAssertion(property, source, target)),
            Axiom::DataPropertyAssertion(property, source, target) => all_three(property.copy(alloc), source.copy(alloc), target.copy(alloc)).map(|(property, source, target)| Axiom::DataPropertyAssertion(property, source, target)),
            Axiom::NegativeDataPropertyAssertion(property, source, target) => all_three(property.copy(alloc), source.copy(alloc), target.copy(alloc)).map(|(property, source, target)| Axiom::NegativeDataPropertyAssertion(property, source, target)),
            Axiom::Declaration(declared) => declared.copy(alloc).map(|declared| Axiom::Declaration(declared)),
            Axiom::AnnotationAssertion(property, subject, value) => all_three(property.copy(alloc), subject.copy(alloc), value.copy(alloc)).map(|(property, subject, value)| Axiom::AnnotationAssertion(property, subject, value)),
            Axiom::SubAnnotationPropertyOf(lower, upper) => both(lower.copy(alloc), upper.copy(alloc)).map(|(lower, upper)| Axiom::SubAnnotationPropertyOf(lower, upper)),
            Axiom::AnnotationPropertyDomain(property, domain) => both(property.copy(alloc), domain.copy(alloc)).map(|(property, domain)| Axiom::AnnotationPropertyDomain(property, domain)),
            Axiom::AnnotationPropertyRange(property, range) => both(property.copy(alloc), range.copy(alloc)).map(|(property, range)| Axiom::AnnotationPropertyRange(property, range)),
        }
    }
}

/// An axiom with its annotations. Two are the same only where their annotations are.
#[derive(Drop, PartialEq, Eq, PartialOrd, Ord, Hash)]
pub struct Noted {
    pub notes: Annotations,
    pub axiom: Axiom,
}

impl Noted {
    ghost use Rattle.ad_tree.specs.Logical.{is_logical};

    /// Whether the axiom is a logical one. Declarations and those on annotations are carried along.
    pub fn is_logical(&self) -> bool
        ensures { result ≡ is_logical self.now.axiom }
    {
        !matches!(
            self.axiom,
            Axiom::Declaration(_)
                | Axiom::AnnotationAssertion(_, _, _)
                | Axiom::SubAnnotationPropertyOf(_, _)
                | Axiom::AnnotationPropertyDomain(_, _)
                | Axiom::AnnotationPropertyRange(_, _)
        )
    }

    /// Whether the two are the same, annotations included.
    pub fn same(&self, other: &Noted) -> bool
        ensures { IsTrue result ↔ (self.now ≡ other.now) }
    {
        self == other
    }

    /// Another axiom with the same annotations.
    pub fn copy(&self, alloc: Global) -> Result<Noted, Memory>
        ensures { IfOk result (λ copy. copy ≡ self.now) }
    {
        Ok(Noted {
            notes: copy_annotations(alloc, &self.notes)?,
            axiom: self.axiom.copy(alloc)?,
        })
    }
}
