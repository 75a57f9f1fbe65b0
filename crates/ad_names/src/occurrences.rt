ghost use Rattle.std.specs.Prelude.{◌≡◌, ◌++◌, fold, OnOk};
ghost use Rattle.std.specs.List.{flat_map};
ghost use Rattle.ad_locality.specs.Signature.{named, of_property, of_individual, of_literal, of_class, of_range, occurrences};
ghost use Rattle.ad_entity.specs.declared.entities.EntityKind.TheVariants as kinds;

use crate::classes::{take_class, take_classes};
use crate::collect::{Collect, take_individual, take_literal, take_named, take_property};
use crate::lists::{take_data_properties, take_individuals, take_properties};
use crate::ranges::take_range;
use ad_base::{Memory, Word};
use ad_tree::{Axiom, Class, EntityKind, Individual, Literal, ObjProp, Range};

/// Hands the entities that occur in a logical axiom on, in the order in which they stand in it, with
/// repeats; of a carried axiom none. What is left after `Memory` is left open.
pub fn take_axiom<C: Collect>(axiom: &Axiom, into: &mut C) -> Result<(), Memory>
    ensures { OnOk result (into.new ≡ fold C.after into.old (occurrences axiom.now)) }
{
    match axiom {
        Axiom::SubClassOf(c, d) => take_two_classes(c, d, into),
        Axiom::EquivalentClasses(cs) => take_classes(cs.as_slice(), into),
        Axiom::DisjointClasses(cs) => take_classes(cs.as_slice(), into),
        Axiom::DisjointUnion(a, cs) => take_union(a, cs.as_slice(), into),
        Axiom::SubObjectPropertyOf(r, s) => take_two_properties(r, s, into),
        Axiom::SubObjectPropertyChainOf(chain, s) => take_chain(chain.as_slice(), s, into),
        Axiom::EquivalentObjectProperties(rs) => take_properties(rs.as_slice(), into),
        Axiom::DisjointObjectProperties(rs) => take_properties(rs.as_slice(), into),
        Axiom::InverseObjectProperties(r, s) => take_two_properties(r, s, into),
        Axiom::ObjectPropertyDomain(r, c) => take_property_and_class(r, c, into),
        Axiom::ObjectPropertyRange(r, c) => take_property_and_class(r, c, into),
        Axiom::FunctionalObjectProperty(r) => take_property(r, into),
        Axiom::InverseFunctionalObjectProperty(r) => take_property(r, into),
        Axiom::ReflexiveObjectProperty(r) => take_property(r, into),
        Axiom::IrreflexiveObjectProperty(r) => take_property(r, into),
        Axiom::SymmetricObjectProperty(r) => take_property(r, into),
        Axiom::AsymmetricObjectProperty(r) => take_property(r, into),
        Axiom::TransitiveObjectProperty(r) => take_property(r, into),
        Axiom::SubDataPropertyOf(u, v) => take_two_data_properties(u, v, into),
        Axiom::EquivalentDataProperties(us) => take_data_properties(us.as_slice(), into),
        Axiom::DisjointDataProperties(us) => take_data_properties(us.as_slice(), into),
        Axiom::DataPropertyDomain(u, c) => take_data_property_and_class(u, c, into),
        Axiom::DataPropertyRange(u, d) => take_name_and_range(EntityKind::DataProperty, u, d, into),
        Axiom::FunctionalDataProperty(u) => take_named(EntityKind::DataProperty, u, into),
        Axiom::DatatypeDefinition(datatype, d) => {
            take_name_and_range(EntityKind::Datatype, datatype, d, into)
        }
        Axiom::HasKey(c, rs, us) => take_key(c, rs.as_slice(), us.as_slice(), into),
        Axiom::SameIndividual(individuals) => take_individuals(individuals.as_slice(), into),
        Axiom::DifferentIndividuals(individuals) => take_individuals(individuals.as_slice(), into),
        Axiom::ClassAssertion(c, individual) => take_class_assertion(c, individual, into),
        Axiom::ObjectPropertyAssertion(r, a, b) => take_object_assertion(r, a, b, into),
        Axiom::NegativeObjectPropertyAssertion(r, a, b) => take_object_assertion(r, a, b, into),
        Axiom::DataPropertyAssertion(u, a, value) => take_data_assertion(u, a, value, into),
        Axiom::NegativeDataPropertyAssertion(u, a, value) => take_data_assertion(u, a, value, into),
        Axiom::Declaration(_) => Ok(()),
        Axiom::AnnotationAssertion(_, _, _) => Ok(()),
        Axiom::SubAnnotationPropertyOf(_, _) => Ok(()),
        Axiom::AnnotationPropertyDomain(_, _) => Ok(()),
        Axiom::AnnotationPropertyRange(_, _) => Ok(()),
    }
}

fn take_two_classes<C: Collect>(first: &Class, second: &Class, into: &mut C) -> Result<(), Memory>
    ensures { OnOk result (into.new ≡ fold C.after into.old (of_class first.now ++ of_class second.now)) }
{
    take_class(first, into)?;
    take_class(second, into)
}

fn take_union<C: Collect>(class: &Word, parts: &[Class], into: &mut C) -> Result<(), Memory>
    ensures { OnOk result (into.new ≡ fold C.after into.old (named kinds.Class class.now ++ flat_map of_class parts.now)) }
{
    take_named(EntityKind::Class, class, into)?;
    take_classes(parts, into)
}

fn take_chain<C: Collect>(chain: &[ObjProp], property: &ObjProp, into: &mut C) -> Result<(), Memory>
    ensures { OnOk result (into.new ≡ fold C.after into.old (flat_map of_property chain.now ++ of_property property.now)) }
{
    take_properties(chain, into)?;
    take_property(property, into)
}

fn take_two_data_properties<C: Collect>(
    first: &Word,
    second: &Word,
    into: &mut C,
) -> Result<(), Memory>
    ensures { OnOk result (into.new ≡ fold C.after into.old (named kinds.DataProperty first.now ++ named kinds.DataProperty second.now)) }
{
    take_named(EntityKind::DataProperty, first, into)?;
    take_named(EntityKind::DataProperty, second, into)
}

fn take_data_property_and_class<C: Collect>(
    property: &Word,
    class: &Class,
    into: &mut C,
) -> Result<(), Memory>
    ensures { OnOk result (into.new ≡ fold C.after into.old (named kinds.DataProperty property.now ++ of_class class.now)) }
{
    take_named(EntityKind::DataProperty, property, into)?;
    take_class(class, into)
}

fn take_name_and_range<C: Collect>(
    kind: EntityKind,
    name: &Word,
    range: &Range,
    into: &mut C,
) -> Result<(), Memory>
    ensures { OnOk result (into.new ≡ fold C.after into.old (named kind name.now ++ of_range range.now)) }
{
    take_named(kind, name, into)?;
    take_range(range, into)
}

// Hands on a key: a class, object properties and data properties.
fn take_key<C: Collect>(
    class: &Class,
    objects: &[ObjProp],
    values: &[Word],
    into: &mut C,
) -> Result<(), Memory>
    ensures { OnOk result (into.new ≡ fold C.after into.old (of_class class.now ++ flat_map of_property objects.now ++ flat_map (named kinds.DataProperty) values.now)) }
{
    take_class(class, into)?;
    take_properties(objects, into)?;
    take_data_properties(values, into)
}

fn take_class_assertion<C: Collect>(
    class: &Class,
    individual: &Individual,
    into: &mut C,
) -> Result<(), Memory>
    ensures { OnOk result (into.new ≡ fold C.after into.old (of_class class.now ++ of_individual individual.now)) }
{
    take_class(class, into)?;
    take_individual(individual, into)
}

fn take_two_properties<C: Collect>(
    first: &ObjProp,
    second: &ObjProp,
    into: &mut C,
) -> Result<(), Memory>
    ensures { OnOk result (into.new ≡ fold C.after into.old (of_property first.now ++ of_property second.now)) }
{
    take_property(first, into)?;
    take_property(second, into)
}

fn take_property_and_class<C: Collect>(
    property: &ObjProp,
    class: &Class,
    into: &mut C,
) -> Result<(), Memory>
    ensures { OnOk result (into.new ≡ fold C.after into.old (of_property property.now ++ of_class class.now)) }
{
    take_property(property, into)?;
    take_class(class, into)
}

fn take_object_assertion<C: Collect>(
    property: &ObjProp,
    source: &Individual,
    target: &Individual,
    into: &mut C,
) -> Result<(), Memory>
    ensures { OnOk result (into.new ≡ fold C.after into.old (of_property property.now ++ of_individual source.now ++ of_individual target.now)) }
{
    take_property(property, into)?;
    take_individual(source, into)?;
    take_individual(target, into)
}

fn take_data_assertion<C: Collect>(
    property: &Word,
    source: &Individual,
    target: &Literal,
    into: &mut C,
) -> Result<(), Memory>
    ensures { OnOk result (into.new ≡ fold C.after into.old (named kinds.DataProperty property.now ++ of_individual source.now ++ of_literal target.now)) }
{
    take_named(EntityKind::DataProperty, property, into)?;
    take_individual(source, into)?;
    take_literal(target, into)
}
