ghost use Rattle.std.specs.Prelude.{◌≡◌, IfOk};

use crate::literals::Literal;
use crate::many::Many;
use ad_base::{Memory, Word};
use std::alloc::Global;

/// What an annotation assertion speaks of: an IRI, or an anonymous individual by its label.
#[derive(Drop, PartialEq, Eq, PartialOrd, Ord, Hash)]
pub enum Subject {
    Iri(Word),
    Anonymous(Word),
}

/// The value of an annotation (section 10.1 of the Structural Specification).
#[derive(Drop, PartialEq, Eq, PartialOrd, Ord, Hash)]
pub enum Value {
    Iri(Word),
    Anonymous(Word),
    Literal(Literal),
}

/// An annotation, which may be annotated itself. Its property is named by its IRI.
#[derive(Drop, PartialEq, Eq, PartialOrd, Ord, Hash)]
pub struct Annotation {
    pub notes: Annotations,
    pub property: Word,
    pub value: Value,
}

/// Annotations, in order.
pub type Annotations = Many<Annotation>;

impl Subject {
    /// Another subject of the same name.
    pub fn copy(&self, alloc: Global) -> Result<Subject, Memory>
        ensures { IfOk result (λ copy. copy ≡ self.now) }
    {
        Ok(match self {
            Subject::Iri(iri) => Subject::Iri(iri.copy(alloc)?),
            Subject::Anonymous(label) => Subject::Anonymous(label.copy(alloc)?),
        })
    }
}

impl Value {
    /// Another value, the same.
    pub fn copy(&self, alloc: Global) -> Result<Value, Memory>
        ensures { IfOk result (λ copy. copy ≡ self.now) }
    {
        Ok(match self {
            Value::Iri(iri) => Value::Iri(iri.copy(alloc)?),
            Value::Anonymous(label) => Value::Anonymous(label.copy(alloc)?),
            Value::Literal(literal) => Value::Literal(literal.copy(alloc)?),
        })
    }
}

impl Annotation {
    /// Another annotation, with the same annotations of its own.
    #[cycle(annotation_copy)]
    pub fn copy(&self, alloc: Global) -> Result<Annotation, Memory>
        ensures { IfOk result (λ copy. copy ≡ self.now) }
    {
        Ok(Annotation {
            notes: copy_annotations(alloc, &self.notes)?,
            property: self.property.copy(alloc)?,
            value: self.value.copy(alloc)?,
        })
    }
}

// Another list of the same annotations.
#[cycle(annotation_copy)]
pub(crate) fn copy_annotations(alloc: Global, parts: &Annotations) -> Result<Annotations, Memory>
    ensures { IfOk result (λ copy. copy ≡ parts.now) }
{
    let all = parts.as_slice();
    let mut copy = Many::new(alloc);
    for part in all {
        copy.push(part.copy(alloc)?)?;
    }
    Ok(copy)
}
