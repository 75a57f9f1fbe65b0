ghost use Rattle.std.specs.Prelude.{◌≡◌, fold, OnOk};
ghost use Rattle.ad_entity.specs.Entities.{entity};
ghost use Rattle.ad_locality.specs.Signature.{named, of_property, of_individual, of_literal};
ghost use Rattle.ad_entity.specs.declared.entities.Entity.{Entity};

use ad_base::{Memory, Word};
use ad_locality::standing;
use ad_tree::{EntityKind, Individual, Literal, ObjProp};

/// What takes entities one after another.
pub trait Collect {
    ghost after: { Self → Entity → Self };

    /// Takes the entity of this kind and name. What is left after `Memory` is left open.
    fn take(&mut self, kind: EntityKind, name: &Word) -> Result<(), Memory>
        ensures { OnOk result (self.new ≡ after self.old (entity kind name.now)) };
}

// Hands a name in the position of its kind on, unless it is built in.
#[tactic(auto, using(ad_locality::proofs::ColumnLemmas::has_columns))]
pub(crate) fn take_named<C: Collect>(
    kind: EntityKind,
    name: &Word,
    into: &mut C,
) -> Result<(), Memory>
    ensures { OnOk result (into.new ≡ fold C.after into.old (named kind name.now)) }
{
    if standing(kind, name).is_some() {
        return Ok(());
    }
    into.take(kind, name)
}

// Hands on what occurs in an object property.
pub(crate) fn take_property<C: Collect>(property: &ObjProp, into: &mut C) -> Result<(), Memory>
    ensures { OnOk result (into.new ≡ fold C.after into.old (of_property property.now)) }
{
    match property {
        ObjProp::Named(name) => take_named(EntityKind::ObjectProperty, name, into),
        ObjProp::Inverse(name) => take_named(EntityKind::ObjectProperty, name, into),
    }
}

// Hands on what occurs in an individual.
pub(crate) fn take_individual<C: Collect>(
    individual: &Individual,
    into: &mut C,
) -> Result<(), Memory>
    ensures { OnOk result (into.new ≡ fold C.after into.old (of_individual individual.now)) }
{
    match individual {
        Individual::Named(name) => take_named(EntityKind::NamedIndividual, name, into),
        Individual::Anonymous(_) => Ok(()),
    }
}

// Hands on what occurs in a literal.
pub(crate) fn take_literal<C: Collect>(literal: &Literal, into: &mut C) -> Result<(), Memory>
    ensures { OnOk result (into.new ≡ fold C.after into.old (of_literal literal.now)) }
{
    match literal {
        Literal::Plain(_) => Ok(()),
        Literal::Lang(_, _) => Ok(()),
        Literal::Typed(_, datatype) => take_named(EntityKind::Datatype, datatype, into),
    }
}
