ghost use Rattle.std.specs.Prelude.{◌≡◌, IfOk};

use crate::many::Many;
use ad_base::{Memory, Word};
use std::alloc::Global;

/// Names of data properties, by their full IRIs.
pub type Words = Many<Word>;

/// An object property, or the inverse of a named one (section 6.1 of the Structural Specification).
#[derive(Drop, PartialEq, Eq, PartialOrd, Ord, Hash)]
pub enum ObjProp {
    Named(Word),
    Inverse(Word),
}

/// Object properties, in order.
pub type ObjProps = Many<ObjProp>;

/// A named individual by its IRI, or an anonymous one by its label (sections 5.6.1 and 5.6.2).
#[derive(Drop, PartialEq, Eq, PartialOrd, Ord, Hash)]
pub enum Individual {
    Named(Word),
    Anonymous(Word),
}

/// Individuals, in order.
pub type Individuals = Many<Individual>;

impl ObjProp {
    /// Another property with the same name.
    pub fn copy(&self, alloc: Global) -> Result<ObjProp, Memory>
        ensures { IfOk result (λ copy. copy ≡ self.now) }
    {
        Ok(match self {
            ObjProp::Named(name) => ObjProp::Named(name.copy(alloc)?),
            ObjProp::Inverse(name) => ObjProp::Inverse(name.copy(alloc)?),
        })
    }
}

impl Individual {
    /// Another individual with the same name.
    pub fn copy(&self, alloc: Global) -> Result<Individual, Memory>
        ensures { IfOk result (λ copy. copy ≡ self.now) }
    {
        Ok(match self {
            Individual::Named(iri) => Individual::Named(iri.copy(alloc)?),
            Individual::Anonymous(label) => Individual::Anonymous(label.copy(alloc)?),
        })
    }
}

// Another list of the same names.
pub(crate) fn copy_words(alloc: Global, parts: &Words) -> Result<Words, Memory>
    ensures { IfOk result (λ copy. copy ≡ parts.now) }
{
    let all = parts.as_slice();
    let mut copy = Many::new(alloc);
    for part in all {
        copy.push(part.copy(alloc)?)?;
    }
    Ok(copy)
}

// Another list of the same properties.
pub(crate) fn copy_properties(alloc: Global, parts: &ObjProps) -> Result<ObjProps, Memory>
    ensures { IfOk result (λ copy. copy ≡ parts.now) }
{
    let all = parts.as_slice();
    let mut copy = Many::new(alloc);
    for part in all {
        copy.push(part.copy(alloc)?)?;
    }
    Ok(copy)
}

// Another list of the same individuals.
pub(crate) fn copy_individuals(alloc: Global, parts: &Individuals) -> Result<Individuals, Memory>
    ensures { IfOk result (λ copy. copy ≡ parts.now) }
{
    let all = parts.as_slice();
    let mut copy = Many::new(alloc);
    for part in all {
        copy.push(part.copy(alloc)?)?;
    }
    Ok(copy)
}
