ghost use Rattle.std.specs.Prelude.{◌≡◌, ◌++◌, fold, OnOk};
ghost use Rattle.std.specs.List.{flat_map};
ghost use Rattle.ad_locality.specs.Signature.{named, of_property, of_optional, of_range, of_class};
ghost use Rattle.ad_entity.specs.declared.entities.EntityKind.TheVariants as kinds;

use crate::collect::{Collect, take_individual, take_literal, take_named, take_property};
use crate::lists::take_individuals;
use crate::ranges::take_range;
use ad_base::{Memory, Word};
use ad_tree::{Class, EntityKind, Range};

// Hands on what occurs in a class expression.
#[tactic(auto, unfolding(ad_locality::specs::Signature::of_class))]
pub(crate) fn take_class<C: Collect>(class: &Class, into: &mut C) -> Result<(), Memory>
    ensures { OnOk result (into.new ≡ fold C.after into.old (of_class class.now)) }
{
    match class {
        Class::Named(name) => take_named(EntityKind::Class, name, into),
        Class::And(operands) => {
            'intersection: for operand in operands.as_slice() {
                take_class(operand, into)?;
            }
            Ok(())
        }
        Class::Or(operands) => {
            'union: for operand in operands.as_slice() {
                take_class(operand, into)?;
            }
            Ok(())
        }
        Class::Not(c) => take_class(c.get(), into),
        Class::OneOf(individuals) => take_individuals(individuals.as_slice(), into),
        Class::ObjSome(r, c) => {
            take_property(r, into)?;
            take_class(c.get(), into)
        }
        Class::ObjAll(r, c) => {
            take_property(r, into)?;
            take_class(c.get(), into)
        }
        Class::ObjValue(r, individual) => {
            take_property(r, into)?;
            take_individual(individual, into)
        }
        Class::ObjSelf(r) => take_property(r, into),
        Class::ObjMin(_, r, None) => take_property(r, into),
        Class::ObjMin(_, r, Some(c)) => {
            take_property(r, into)?;
            take_class(c.get(), into)
        }
        Class::ObjMax(_, r, None) => take_property(r, into),
        Class::ObjMax(_, r, Some(c)) => {
            take_property(r, into)?;
            take_class(c.get(), into)
        }
        Class::ObjExact(_, r, None) => take_property(r, into),
        Class::ObjExact(_, r, Some(c)) => {
            take_property(r, into)?;
            take_class(c.get(), into)
        }
        Class::DataSome(u, d) => {
            take_named(EntityKind::DataProperty, u, into)?;
            take_range(d, into)
        }
        Class::DataAll(u, d) => {
            take_named(EntityKind::DataProperty, u, into)?;
            take_range(d, into)
        }
        Class::DataValue(u, value) => {
            take_named(EntityKind::DataProperty, u, into)?;
            take_literal(value, into)
        }
        Class::DataMin(_, u, d) => take_data_cardinality(u, d, into),
        Class::DataMax(_, u, d) => take_data_cardinality(u, d, into),
        Class::DataExact(_, u, d) => take_data_cardinality(u, d, into),
    }
}

// Hands on what occurs in a data cardinality.
fn take_data_cardinality<C: Collect>(
    property: &Word,
    filler: &Option<Range>,
    into: &mut C,
) -> Result<(), Memory>
    ensures { OnOk result (into.new ≡ fold C.after into.old (named kinds.DataProperty property.now ++ of_optional of_range filler.now)) }
{
    take_named(EntityKind::DataProperty, property, into)?;
    match filler {
        None => Ok(()),
        Some(range) => take_range(range, into),
    }
}

// Hands on what occurs in each class expression.
pub(crate) fn take_classes<C: Collect>(classes: &[Class], into: &mut C) -> Result<(), Memory>
    ensures { OnOk result (into.new ≡ fold C.after into.old (flat_map of_class classes.now)) }
{
    for class in classes {
        take_class(class, into)?;
    }
    Ok(())
}
