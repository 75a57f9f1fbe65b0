ghost use Rattle.std.specs.Prelude.{◌≡◌, IfOk};

use crate::literals::{Facets, Literals, copy_facets, copy_literals};
use crate::many::Many;
use crate::one::One;
use ad_base::{Memory, Word};
use std::alloc::Global;

/// A data range (section 7 of the Structural Specification). A datatype is named by its IRI.
#[derive(Drop, PartialEq, Eq, PartialOrd, Ord, Hash)]
pub enum Range {
    Named(Word),
    And(Ranges),
    Or(Ranges),
    Not(One<Range>),
    OneOf(Literals),
    Restriction(Word, Facets),
}

/// Data ranges, in order.
pub type Ranges = Many<Range>;

impl Range {
    /// Another data range, the same.
    #[cycle(range_copy)]
    pub fn copy(&self, alloc: Global) -> Result<Range, Memory>
        ensures { IfOk result (λ copy. copy ≡ self.now) }
    {
        Ok(match self {
            Range::Named(datatype) => Range::Named(datatype.copy(alloc)?),
            Range::And(operands) => Range::And(copy_ranges(alloc, operands)?),
            Range::Or(operands) => Range::Or(copy_ranges(alloc, operands)?),
            Range::Not(operand) => Range::Not(copy_one(alloc, operand)?),
            Range::OneOf(values) => Range::OneOf(copy_literals(alloc, values)?),
            Range::Restriction(datatype, facets) => Range::Restriction(
                datatype.copy(alloc)?,
                copy_facets(alloc, facets)?,
            ),
        })
    }
}

// Another list of the same data ranges.
#[cycle(range_copy)]
pub(crate) fn copy_ranges(alloc: Global, parts: &Ranges) -> Result<Ranges, Memory>
    ensures { IfOk result (λ copy. copy ≡ parts.now) }
{
    let all = parts.as_slice();
    let mut copy = Many::new(alloc);
    for part in all {
        copy.push(part.copy(alloc)?)?;
    }
    Ok(copy)
}

// Another operand, the same.
#[cycle(range_copy)]
fn copy_one(alloc: Global, part: &One<Range>) -> Result<One<Range>, Memory>
    ensures { IfOk result (λ copy. copy ≡ part.now) }
{
    One::new(alloc, part.get().copy(alloc)?)
}

// Another optional data range, the same.
pub(crate) fn copy_optional(alloc: Global, range: &Option<Range>) -> Result<Option<Range>, Memory>
    ensures { IfOk result (λ copy. copy ≡ range.now) }
{
    Ok(match range {
        None => None,
        Some(range) => Some(range.copy(alloc)?),
    })
}
