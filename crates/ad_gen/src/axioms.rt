//! The axioms on a class of a generated ontology.
ghost use Rattle.std.specs.Prelude.{◌≡◌, IfOk};
ghost use Rattle.ad_gen.specs.Generated.{below, below_everything, below_half, declaration, equal, equal_to_twin, plain};

use crate::names::{class_name, twin_name};
use ad_base::{Memory, Word};
use ad_tree::{Axiom, Class, Entity, EntityKind, Many, Noted};
use std::alloc::Global;

// An axiom without annotations.
fn plain(alloc: Global, form: Axiom) -> Noted
    ensures { result ≡ plain form }
{
    Noted {
        notes: Many::new(alloc),
        axiom: form,
    }
}

// One class is below another.
fn below(alloc: Global, lower: Word, upper: Word) -> Noted
    ensures { result ≡ below lower upper }
{
    plain(
        alloc,
        Axiom::SubClassOf(Class::Named(lower), Class::Named(upper)),
    )
}

// Two classes are equivalent.
fn equal(alloc: Global, first: Word, second: Word) -> Result<Noted, Memory>
    ensures { IfOk result (λ noted. noted ≡ equal first second) }
{
    let mut both = Many::new(alloc);
    both.push(Class::Named(first))?;
    both.push(Class::Named(second))?;
    Ok(plain(alloc, Axiom::EquivalentClasses(both)))
}

// The class with this number is declared.
pub(crate) fn declaration(alloc: Global, number: u32) -> Result<Noted, Memory>
    ensures { IfOk result (λ noted. noted ≡ declaration number) }
{
    let name = class_name(alloc, number)?;
    let kind = EntityKind::Class;
    Ok(plain(alloc, Axiom::Declaration(Entity { kind, name })))
}

// It is below the class of half its number.
pub(crate) fn below_half(alloc: Global, number: u32) -> Result<Noted, Memory>
    ensures { IfOk result (λ noted. noted ≡ below_half number) }
{
    let upper = class_name(alloc, number / 2)?;
    let lower = class_name(alloc, number)?;
    Ok(below(alloc, lower, upper))
}

// It is equivalent to its twin.
pub(crate) fn equal_to_twin(alloc: Global, number: u32) -> Result<Noted, Memory>
    ensures { IfOk result (λ noted. noted ≡ equal_to_twin number) }
{
    let twin = twin_name(alloc, number)?;
    let class = class_name(alloc, number)?;
    equal(alloc, class, twin)
}

// It is below the class of everything.
pub(crate) fn below_everything(alloc: Global, number: u32) -> Result<Noted, Memory>
    ensures { IfOk result (λ noted. noted ≡ below_everything number) }
{
    let upper = Word::of(alloc, "http://www.w3.org/2002/07/owl#Thing")?;
    let lower = class_name(alloc, number)?;
    Ok(below(alloc, lower, upper))
}
