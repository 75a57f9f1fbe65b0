ghost use Rattle.std.specs.Prelude.{◌≡◌, ℕ, Bool, Option};
ghost use Rattle.ad_entity.specs.Entities.{entity, has_entity};
ghost use Rattle.ad_entity.specs.declared.entities.Entity.{Entity};

use crate::entities::EntityKind;
use crate::seed::Seed;
use ad_base::Word;

/// A set of entities that can be asked for its members.
pub trait Seen {
    ghost member: { Self → Entity → Bool };

    /// Whether the entity of this kind and name is a member.
    fn has(&self, kind: EntityKind, name: &Word) -> bool
        ensures { result ≡ member self.now (entity kind name.now) };
}

/// Numbers of entities.
pub trait Naming {
    ghost number_of: { Self → Entity → Option ℕ };

    /// The number of the entity of this kind and name, and None exactly where it has none.
    fn number(&self, kind: EntityKind, name: &Word) -> Option<u32>
        ensures { result ≡ number_of self.now (entity kind name.now) };
}

impl Seen for Seed {
    ghost member = { has_entity };

    fn has(&self, kind: EntityKind, name: &Word) -> bool {
        self.entities()
            .iter()
            .any(|entity| entity.kind == kind && entity.name == *name)
    }
}
