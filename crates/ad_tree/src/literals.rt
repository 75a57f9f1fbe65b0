ghost use Rattle.std.specs.Prelude.{◌≡◌, IfOk};

use crate::many::Many;
use ad_base::{Memory, Word};
use std::alloc::Global;

/// A literal as it is spelled (section 5.7 of the Structural Specification): its text alone, with a
/// language tag, or with the IRI of a datatype. The three spellings are three values.
#[derive(Drop, PartialEq, Eq, PartialOrd, Ord, Hash)]
pub enum Literal {
    Plain(Word),
    Lang(Word, Word),
    Typed(Word, Word),
}

/// Literals, in order.
pub type Literals = Many<Literal>;

/// A constraining facet by its IRI, with its value (section 7.5).
#[derive(Drop, PartialEq, Eq, PartialOrd, Ord, Hash)]
pub struct Facet {
    pub facet: Word,
    pub value: Literal,
}

/// Facets, in order.
pub type Facets = Many<Facet>;

impl Literal {
    /// Another literal of the same spelling.
    pub fn copy(&self, alloc: Global) -> Result<Literal, Memory>
        ensures { IfOk result (λ copy. copy ≡ self.now) }
    {
        Ok(match self {
            Literal::Plain(text) => Literal::Plain(text.copy(alloc)?),
            Literal::Lang(text, tag) => Literal::Lang(text.copy(alloc)?, tag.copy(alloc)?),
            Literal::Typed(text, datatype) => Literal::Typed(
                text.copy(alloc)?,
                datatype.copy(alloc)?,
            ),
        })
    }
}

impl Facet {
    /// Another facet of the same IRI and value.
    pub fn copy(&self, alloc: Global) -> Result<Facet, Memory>
        ensures { IfOk result (λ copy. copy ≡ self.now) }
    {
        Ok(Facet {
            facet: self.facet.copy(alloc)?,
            value: self.value.copy(alloc)?,
        })
    }
}

// Another list of the same literals.
pub(crate) fn copy_literals(alloc: Global, parts: &Literals) -> Result<Literals, Memory>
    ensures { IfOk result (λ copy. copy ≡ parts.now) }
{
    let all = parts.as_slice();
    let mut copy = Many::new(alloc);
    for part in all {
        copy.push(part.copy(alloc)?)?;
    }
    Ok(copy)
}

// Another list of the same facets.
pub(crate) fn copy_facets(alloc: Global, parts: &Facets) -> Result<Facets, Memory>
    ensures { IfOk result (λ copy. copy ≡ parts.now) }
{
    let all = parts.as_slice();
    let mut copy = Many::new(alloc);
    for part in all {
        copy.push(part.copy(alloc)?)?;
    }
    Ok(copy)
}
