//! What the document of a found module is made of.
ghost use Rattle.std.specs.Prelude.{◌≡◌, ◌<◌, ◌&&◌, not, IfSome};
ghost use Rattle.std.specs.List.{list_any};
ghost use Rattle.ad_entity.specs.Builtin.{is_builtin};
ghost use Rattle.ad_entity.specs.Entities.{entity, same_entity};
ghost use Rattle.ad_module_document.specs.Documents.{IsRoomFor, is_about, is_chosen};

use crate::choice::Choice;
use crate::room::Room;
use ad_base::Word;
use ad_numbered::NumberedOntology;
use ad_syntax_laws::goes_with;
use ad_tree::{Entity, EntityKind, Naming, Noted, Seed, Seen};

// A module that was found in an ontology for a seed.
#[derive(Drop)]
pub(crate) struct Found<'a> {
    pub(crate) ontology: &'a NumberedOntology,
    pub(crate) seed: &'a Seed,
    pub(crate) room: &'a Room,
    ghost fits: { IsRoomFor ontology.now.most ontology.now.symbols room.now },
}

// The entities of the seed, and those in the module's signatures.
impl<'a> Seen for Found<'a> {
    ghost member = { λ found. is_about found.ontology.now found.seed.now found.room.now.closure };

    fn has(&self, kind: EntityKind, name: &Word) -> bool {
        self.ontology.laws();
        match self.ontology.number(kind, name) {
            Some(number) => self.room.closure.has(number),
            None => is_named(self.seed, kind, name),
        }
    }
}

// The document has the module's axioms, and the carried axioms that go with its entities.
impl<'a> Choice for Found<'a> {
    ghost reach = { λ found. found.ontology.now.most };

    ghost takes = { λ found. is_chosen found.ontology.now found.seed.now found.room.now.members found.room.now.closure };

    fn takes(&self, noted: &Noted, slot: Option<u32>) -> bool {
        match slot {
            Some(slot) => self.room.members.has(slot),
            None => goes_with(noted, self),
        }
    }
}

// Whether one of the seed's entities that aren't built in is this one.
fn is_named(seed: &Seed, kind: EntityKind, name: &Word) -> bool
    ensures { result ≡ list_any (λ x. same_entity x (entity kind name.now) && not (is_builtin x)) seed.now }
{
    seed.entities().iter().any(|one| is_this(one, kind, name))
}

// Whether an entity isn't built in, and is the one of this kind and name.
fn is_this(one: &Entity, kind: EntityKind, name: &Word) -> bool
    ensures { result ≡ (same_entity one.now (entity kind name.now) && not (is_builtin one.now)) }
{
    one.kind == kind && one.name == *name && !one.is_builtin()
}
