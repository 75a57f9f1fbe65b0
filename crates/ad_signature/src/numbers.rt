ghost use Rattle.std.specs.Prelude.{◌≡◌, ◌+◌, cond, if◌then◌else◌, Some, None, is_some, IfOk, IfNone, OnOk, OnErr};
ghost use Rattle.ad_entity.specs.Entities.{entity, same_entity};
ghost use Rattle.ad_entity.specs.declared.entities.Entity.{Entity};
ghost use Rattle.ad_signature.specs.Numbering.{number_in, count, no_entities};

use crate::kind_numbers::KindNumbers;
use ad_base::{Memory, Word};
use ad_tree::{Entity, EntityKind};
use std::alloc::Global;
use std::hash::RandomState;

// Entities with their numbers.
#[derive(Drop)]
pub(crate) struct EntityNumbers {
    classes: KindNumbers,
    datatypes: KindNumbers,
    object_properties: KindNumbers,
    data_properties: KindNumbers,
    annotation_properties: KindNumbers,
    individuals: KindNumbers,
}

impl EntityNumbers {
    // The map without entities. It takes no memory.
    pub(crate) fn new(alloc: Global, keys: RandomState) -> EntityNumbers
        ensures all { result ≡ no_entities }
        ensures empty { (e : Entity) → number_in result e ≡ None }
        ensures count { count result ≡ 0 }
    {
        EntityNumbers {
            classes: KindNumbers::new(alloc, keys),
            datatypes: KindNumbers::new(alloc, keys),
            object_properties: KindNumbers::new(alloc, keys),
            data_properties: KindNumbers::new(alloc, keys),
            annotation_properties: KindNumbers::new(alloc, keys),
            individuals: KindNumbers::new(alloc, keys),
        }
    }

    // The number of the entity of this kind and name.
    pub(crate) fn number(&self, kind: EntityKind, name: &Word) -> Option<u32>
        ensures { result ≡ number_in self.now (entity kind name.now) }
    {
        match kind {
            EntityKind::Class => self.classes.number(name),
            EntityKind::Datatype => self.datatypes.number(name),
            EntityKind::ObjectProperty => self.object_properties.number(name),
            EntityKind::DataProperty => self.data_properties.number(name),
            EntityKind::AnnotationProperty => self.annotation_properties.number(name),
            EntityKind::NamedIndividual => self.individuals.number(name),
        }
    }

    // Gives an entity that has no number one.
    pub(crate) fn insert(
        &mut self,
        alloc: Global,
        entity: &Entity,
        number: u32,
    ) -> Result<(), Memory>
        requires { number_in self.old entity.now ≡ None }
        ensures ok { OnOk result ((e : Entity) → number_in self.new e ≡ cond (same_entity entity.now e) (Some number) (number_in self.old e)) }
        ensures count { OnOk result (count self.new ≡ count self.old + 1) }
        ensures err { OnErr result (self.new ≡ self.old) }
    {
        let name = &entity.name;
        match entity.kind {
            EntityKind::Class => self.classes.insert(alloc, name, number),
            EntityKind::Datatype => self.datatypes.insert(alloc, name, number),
            EntityKind::ObjectProperty => self.object_properties.insert(alloc, name, number),
            EntityKind::DataProperty => self.data_properties.insert(alloc, name, number),
            EntityKind::AnnotationProperty => self
                .annotation_properties
                .insert(alloc, name, number),
            EntityKind::NamedIndividual => self.individuals.insert(alloc, name, number),
        }
    }

    // Takes an entity out, and gives the number that it had.
    pub(crate) fn remove(&mut self, entity: &Entity) -> Option<u32>
        ensures value { result ≡ number_in self.old entity.now }
        ensures rest { (e : Entity) → number_in self.new e ≡ cond (same_entity entity.now e) None (number_in self.old e) }
        ensures count { count self.new + (if is_some result then 1 else 0) ≡ count self.old }
        ensures none { IfNone result (self.new ≡ self.old) }
    {
        let name = &entity.name;
        match entity.kind {
            EntityKind::Class => self.classes.remove(name),
            EntityKind::Datatype => self.datatypes.remove(name),
            EntityKind::ObjectProperty => self.object_properties.remove(name),
            EntityKind::DataProperty => self.data_properties.remove(name),
            EntityKind::AnnotationProperty => self.annotation_properties.remove(name),
            EntityKind::NamedIndividual => self.individuals.remove(name),
        }
    }

    // Takes copies of another map's entities in, with their numbers. It has none before.
    fn fill(&mut self, alloc: Global, from: &EntityNumbers) -> Result<(), Memory>
        requires { self.old ≡ no_entities }
        ensures { OnOk result (self.new ≡ from.now) }
    {
        self.classes.fill(alloc, &from.classes)?;
        self.datatypes.fill(alloc, &from.datatypes)?;
        self.object_properties.fill(alloc, &from.object_properties)?;
        self.data_properties.fill(alloc, &from.data_properties)?;
        self.annotation_properties
            .fill(alloc, &from.annotation_properties)?;
        self.individuals.fill(alloc, &from.individuals)
    }

    // The same entities with the same numbers.
    pub(crate) fn copy(&self, alloc: Global, keys: RandomState) -> Result<EntityNumbers, Memory>
        ensures { IfOk result (λ copy. copy ≡ self.now) }
    {
        let mut copy = EntityNumbers::new(alloc, keys);
        copy.fill(alloc, self)?;
        Ok(copy)
    }
}
