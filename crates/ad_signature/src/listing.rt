ghost use Rattle.std.specs.Prelude.{◌≡◌, IfOk};
ghost use Rattle.std.specs.List.{IsDistinct};
ghost use Rattle.ad_entity.specs.Entities.{has_entity, same_entity};
ghost use Rattle.ad_entity.specs.declared.entities.Entity.{Entity};
ghost use Rattle.ad_locality.specs.Signature.{in_signature};
ghost use Rattle.ad_signature.specs.Firsts.{signature_of};
ghost use Rattle.ad_signature.specs.Listed.{with_first};

use ad_base::{Memory, Word};
use ad_names::{Collect, Names, take_axiom};
use ad_tree::{Entity, EntityKind, Noted, Seed, Seen};
use std::alloc::Global;

// The entities met so far, as a set and in the order in which they were first met.
#[derive(Drop)]
pub(crate) struct Listing {
    alloc: Global,
    met: Names,
    list: Seed,
}

impl Collect for Listing {
    ghost after = { with_first };

    fn take(&mut self, kind: EntityKind, name: &Word) -> Result<(), Memory> {
        if self.met.has(kind, name) {
            return Ok(());
        }
        self.met.take(kind, name)?;
        self.list.push(Entity {
            kind,
            name: name.copy(self.alloc)?,
        })
    }
}

/// The entities of a logical axiom, but for the built-in ones, each once, in the order in which they first occur in it;
/// of a carried axiom none.
pub fn signature(alloc: Global, noted: &Noted) -> Result<Seed, Memory>
    ensures distinct { IfOk result (λ seed. IsDistinct same_entity seed) }
    ensures members { IfOk result (λ seed. (e : Entity) → has_entity seed e ≡ in_signature noted.now.axiom e) }
    ensures order { IfOk result (λ seed. seed ≡ signature_of noted.now.axiom) }
{
    let mut listing = Listing {
        alloc,
        met: Names::new(alloc),
        list: Seed::new(alloc),
    };
    take_axiom(&noted.axiom, &mut listing)?;
    Ok(listing.list)
}
