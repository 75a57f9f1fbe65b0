ghost use Rattle.std.specs.Prelude.{◌≡◌, ◌∷◌, ◌++◌, [], OnOk, OnErr};

use crate::entities::Entity;
use ad_base::Memory;
use std::alloc::Global;
use std::marker::Model;

/// Entities for which a module is asked.
#[derive(Drop)]
pub struct Seed {
    entities: Vec<Entity>,
}

impl Model for Seed {
    ghost use Rattle.std.specs.Prelude.{List};
    ghost use Rattle.ad_entity.specs.declared.entities.Entity.{Entity};

    ghost Value = { List Entity };

    ghost view = { λ seed. seed.entities.items };
}

impl Seed {
    /// The seed without entities. It takes no memory.
    pub fn new(alloc: Global) -> Seed
        ensures { result ≡ [] }
    {
        Seed {
            entities: Vec::new(alloc),
        }
    }

    /// Puts an entity at the end.
    pub fn push(&mut self, entity: Entity) -> Result<(), Memory>
        ensures ok { OnOk result (self.new ≡ self.old ++ entity ∷ []) }
        ensures err { OnErr result (self.new ≡ self.old) }
    {
        self.entities.push(entity)?;
        Ok(())
    }

    /// The entities, in order.
    pub fn entities(&self) -> &[Entity]
        ensures { result.now ≡ self.now }
    {
        self.entities.as_slice()
    }
}
