ghost use Rattle.std.specs.Prelude.{◌≡◌, IfOk};

use crate::builtin::is_builtin_name;
use ad_base::{Memory, Word};
use std::alloc::Global;

/// The kinds of entity of the Structural Specification, section 5.
#[derive(Clone, Copy, PartialEq, Eq, PartialOrd, Ord, Hash)]
pub enum EntityKind {
    Class,
    Datatype,
    ObjectProperty,
    DataProperty,
    AnnotationProperty,
    NamedIndividual,
}

/// A kind and a full IRI. One IRI may name several entities.
#[derive(Drop, PartialEq, Eq, PartialOrd, Ord, Hash)]
pub struct Entity {
    pub kind: EntityKind,
    pub name: Word,
}

impl Entity {
    ghost use Rattle.ad_entity.specs.Builtin.{is_builtin};

    /// Whether the standard builds this entity in.
    pub fn is_builtin(&self) -> bool
        ensures { result ≡ is_builtin self.now }
    {
        is_builtin_name(self.kind, &self.name)
    }

    /// Another entity of the same kind and name.
    pub fn copy(&self, alloc: Global) -> Result<Entity, Memory>
        ensures { IfOk result (λ entity. entity ≡ self.now) }
    {
        Ok(Entity {
            kind: self.kind,
            name: self.name.copy(alloc)?,
        })
    }
}
