ghost use Rattle.std.specs.Prelude.{◌≡◌, fold, OnOk};
ghost use Rattle.std.specs.List.{flat_map};
ghost use Rattle.ad_locality.specs.Signature.{named, of_property, of_individual, of_literal};
ghost use Rattle.ad_entity.specs.declared.entities.EntityKind.TheVariants as kinds;

use crate::collect::{Collect, take_individual, take_literal, take_named, take_property};
use ad_base::{Memory, Word};
use ad_tree::{Entity, EntityKind, Individual, Literal, ObjProp};

// Hands on what occurs in each individual.
pub(crate) fn take_individuals<C: Collect>(
    individuals: &[Individual],
    into: &mut C,
) -> Result<(), Memory>
    ensures { OnOk result (into.new ≡ fold C.after into.old (flat_map of_individual individuals.now)) }
{
    for individual in individuals {
        take_individual(individual, into)?;
    }
    Ok(())
}

// Hands on what occurs in each literal.
pub(crate) fn take_literals<C: Collect>(literals: &[Literal], into: &mut C) -> Result<(), Memory>
    ensures { OnOk result (into.new ≡ fold C.after into.old (flat_map of_literal literals.now)) }
{
    for literal in literals {
        take_literal(literal, into)?;
    }
    Ok(())
}

// Hands on what occurs in each object property.
pub(crate) fn take_properties<C: Collect>(
    properties: &[ObjProp],
    into: &mut C,
) -> Result<(), Memory>
    ensures { OnOk result (into.new ≡ fold C.after into.old (flat_map of_property properties.now)) }
{
    for property in properties {
        take_property(property, into)?;
    }
    Ok(())
}

// Hands on each data property.
pub(crate) fn take_data_properties<C: Collect>(
    properties: &[Word],
    into: &mut C,
) -> Result<(), Memory>
    ensures { OnOk result (into.new ≡ fold C.after into.old (flat_map (named kinds.DataProperty) properties.now)) }
{
    for property in properties {
        take_named(EntityKind::DataProperty, property, into)?;
    }
    Ok(())
}

/// Hands on the listed entities, but for the built-in ones. What is left after `Memory` is left open.
pub fn take_entities<C: Collect>(entities: &[Entity], into: &mut C) -> Result<(), Memory>
    ensures { OnOk result (into.new ≡ fold C.after into.old (flat_map (λ e. named e.kind e.name) entities.now)) }
{
    for entity in entities {
        take_named(entity.kind, &entity.name, into)?;
    }
    Ok(())
}
