ghost use Rattle.std.specs.Prelude.{◌≡◌, IsFalse, OnErr};
ghost use Rattle.ad_entity.specs.declared.entities.Entity.{Entity};
ghost use Rattle.ad_names.specs.Names.{is_member, with_entity};

use crate::collect::Collect;
use crate::word_set::WordSet;
use ad_base::{Memory, Word};
use ad_tree::{EntityKind, Seen};
use std::alloc::Global;

/// A set of entities. It holds one copy of each name at most.
#[derive(Drop)]
pub struct Names {
    alloc: Global,
    classes: WordSet,
    datatypes: WordSet,
    object_properties: WordSet,
    data_properties: WordSet,
    annotation_properties: WordSet,
    individuals: WordSet,
}

impl Names {
    /// The set without entities. It takes no memory.
    pub fn new(alloc: Global) -> Names
        ensures { (e : Entity) → IsFalse (is_member result e) }
    {
        Names {
            alloc,
            classes: WordSet::new(alloc),
            datatypes: WordSet::new(alloc),
            object_properties: WordSet::new(alloc),
            data_properties: WordSet::new(alloc),
            annotation_properties: WordSet::new(alloc),
            individuals: WordSet::new(alloc),
        }
    }
}

impl Seen for Names {
    ghost member = { is_member };

    fn has(&self, kind: EntityKind, name: &Word) -> bool {
        match kind {
            EntityKind::Class => self.classes.has(name),
            EntityKind::Datatype => self.datatypes.has(name),
            EntityKind::ObjectProperty => self.object_properties.has(name),
            EntityKind::DataProperty => self.data_properties.has(name),
            EntityKind::AnnotationProperty => self.annotation_properties.has(name),
            EntityKind::NamedIndividual => self.individuals.has(name),
        }
    }
}

impl Collect for Names {
    ghost after = { with_entity };

    fn take(&mut self, kind: EntityKind, name: &Word) -> Result<(), Memory> {
        match kind {
            EntityKind::Class => self.classes.add(self.alloc, name),
            EntityKind::Datatype => self.datatypes.add(self.alloc, name),
            EntityKind::ObjectProperty => self.object_properties.add(self.alloc, name),
            EntityKind::DataProperty => self.data_properties.add(self.alloc, name),
            EntityKind::AnnotationProperty => self.annotation_properties.add(self.alloc, name),
            EntityKind::NamedIndividual => self.individuals.add(self.alloc, name),
        }
    }
}
