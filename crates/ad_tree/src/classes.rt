ghost use Rattle.std.specs.Prelude.{◌≡◌, IfOk};

use crate::copies::both;
use crate::literals::Literal;
use crate::many::Many;
use crate::names::{Individual, Individuals, ObjProp, copy_individuals};
use crate::one::One;
use crate::ranges::{self, Range};
use ad_base::{Memory, Word};
use std::alloc::Global;

/// A class expression (section 8 of the Structural Specification). Classes and data properties are
/// named by their IRIs.
#[derive(Drop, PartialEq, Eq, PartialOrd, Ord, Hash)]
pub enum Class {
    Named(Word),
    And(Classes),
    Or(Classes),
    Not(One<Class>),
    OneOf(Individuals),
    ObjSome(ObjProp, One<Class>),
    ObjAll(ObjProp, One<Class>),
    ObjValue(ObjProp, Individual),
    ObjSelf(ObjProp),
    ObjMin(u32, ObjProp, Option<One<Class>>),
    ObjMax(u32, ObjProp, Option<One<Class>>),
    ObjExact(u32, ObjProp, Option<One<Class>>),
    DataSome(Word, Range),
    DataAll(Word, Range),
    DataValue(Word, Literal),
    DataMin(u32, Word, Option<Range>),
    DataMax(u32, Word, Option<Range>),
    DataExact(u32, Word, Option<Range>),
}

/// Class expressions, in order.
pub type Classes = Many<Class>;

impl Class {
    /// Another class expression, the same: one form a line.
    #[cycle(class_copy)]
    #[rattlefmt::skip]
    pub fn copy(&self, alloc: Global) -> Result<Class, Memory>
        ensures { IfOk result (λ copy. copy ≡ self.now) }
    {
        match self {
            Class::Named(class) => class.copy(alloc).map(|class| Class::Named(class)),
            Class::And(operands) => copy_classes(alloc, operands).map(|operands| Class::And(operands)),
            Class::Or(operands) => copy_classes(alloc, operands).map(|operands| Class::Or(operands)),
            Class::Not(operand) => copy_one(alloc, operand).map(|operand| Class::Not(operand)),
            Class::OneOf(individuals) => copy_individuals(alloc, individuals).map(|individuals| Class::OneOf(individuals)),
            Class::ObjSome(property, filler) => both(property.copy(alloc), copy_one(alloc, filler)).map(|(property, filler)| Class::ObjSome(property, filler)),
            Class::ObjAll(property, filler) => both(property.copy(alloc), copy_one(alloc, filler)).map(|(property, filler)| Class::ObjAll(property, filler)),
            Class::ObjValue(property, individual) => both(property.copy(alloc), individual.copy(alloc)).map(|(property, individual)| Class::ObjValue(property, individual)),
            Class::ObjSelf(property) => property.copy(alloc).map(|property| Class::ObjSelf(property)),
            Class::ObjMin(n, property, filler) => both(property.copy(alloc), copy_optional(alloc, filler)).map(|(property, filler)| Class::ObjMin(*n, property, filler)),
            Class::ObjMax(n, property, filler) => both(property.copy(alloc), copy_optional(alloc, filler)).map(|(property, filler)| Class::ObjMax(*n, property, filler)),
            Class::ObjExact(n, property, filler) => both(property.copy(alloc), copy_optional(alloc, filler)).map(|(property, filler)| Class::ObjExact(*n, property, filler)),
            Class::DataSome(property, range) => both(property.copy(alloc), range.copy(alloc)).map(|(property, range)| Class::DataSome(property, range)),
            Class::DataAll(property, range) => both(property.copy(alloc), range.copy(alloc)).map(|(property, range)| Class::DataAll(property, range)),
            Class::DataValue(property, value) => both(property.copy(alloc), value.copy(alloc)).map(|(property, value)| Class::DataValue(property, value)),
            Class::DataMin(n, property, range) => both(property.copy(alloc), ranges::copy_optional(alloc, range)).map(|(property, range)| Class::DataMin(*n, property, range)),
            Class::DataMax(n, property, range) => both(property.copy(alloc), ranges::copy_optional(alloc, range)).map(|(property, range)| Class::DataMax(*n, property, range)),
            Class::DataExact(n, property, range) => both(property.copy(alloc), ranges::copy_optional(alloc, range)).map(|(property, range)| Class::DataExact(*n, property, range)),
        }
    }
}

// Another list of the same class expressions.
#[cycle(class_copy)]
pub(crate) fn copy_classes(alloc: Global, parts: &Classes) -> Result<Classes, Memory>
    ensures { IfOk result (λ copy. copy ≡ parts.now) }
{
    let all = parts.as_slice();
    let mut copy = Many::new(alloc);
    for part in all {
        copy.push(part.copy(alloc)?)?;
    }
    Ok(copy)
}

// Another operand, the same.
#[cycle(class_copy)]
fn copy_one(alloc: Global, part: &One<Class>) -> Result<One<Class>, Memory>
    ensures { IfOk result (λ copy. copy ≡ part.now) }
{
    One::new(alloc, part.get().copy(alloc)?)
}

// Another optional filler, the same.
#[cycle(class_copy)]
fn copy_optional(alloc: Global, filler: &Option<One<Class>>) -> Result<Option<One<Class>>, Memory>
    ensures { IfOk result (λ copy. copy ≡ filler.now) }
{
    Ok(match filler {
        None => None,
        Some(filler) => Some(One::new(alloc, filler.get().copy(alloc)?)?),
    })
}
