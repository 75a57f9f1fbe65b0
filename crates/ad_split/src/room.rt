//! How each axiom goes into documents, and room for the numbers of a part.
ghost use Rattle.std.specs.Prelude.{◌≡◌, ◌<◌, ℕ, None, Some, IfOk, length, slice_index_or};
ghost use Rattle.ad_split.specs.Going.{AreGoing};
ghost use Rattle.ad_split.specs.Rooms.{IsRoomOf};

use crate::going::{Going, going_of};
use ad_base::Memory;
use ad_bits::Row;
use ad_edition::Edition;
use ad_numbered::NumberedOntology;
use ad_theory::{Universe, empty_row};
use std::alloc::Global;

/// What writing the parts of an edition needs: how each of its axioms goes into documents, and room for the numbers of the
/// entities of a part.
#[derive(Drop)]
pub struct Room {
    pub(crate) going: Vec<Going>,
    // the numbers of the entities in the signatures of the part's axioms
    pub(crate) closure: Row,
}

impl Room {
    /// Takes all the memory that writing parts of the edition needs.
    pub fn new(alloc: Global, edition: &Edition) -> Result<Room, Memory>
        ensures { IfOk result (IsRoomOf edition.now.numbered) }
    {
        let ontology = edition.ontology();
        let closure = empty_row(alloc, ontology.universe().symbols())?;
        Ok(Room {
            going: goings(alloc, ontology)?,
            closure,
        })
    }
}

// A law: there is a slot or none for each axiom, and each slot is below how many there may be.
fn slots_fit(ontology: &NumberedOntology)
    ensures below { (i slot : ℕ) → slice_index_or ontology.now.slots i None ≡ Some slot → slot < ontology.now.most }
    ensures long { length ontology.now.slots ≡ length ontology.now.axioms }
{
    ontology.laws();
    let _universe = ontology.universe();
}

// How each axiom goes.
fn goings(alloc: Global, ontology: &NumberedOntology) -> Result<Vec<Going>, Memory>
    ensures { IfOk result (λ going. AreGoing ontology.now going.items) }
{
    slots_fit(ontology);
    let axioms = ontology.axioms();
    let slots = ontology.slots();
    let mut going = Vec::with_capacity(alloc, axioms.len())?;
    for i in 0..axioms.len() {
        going.push(going_of(ontology, &axioms[i], slots[i]))?;
    }
    Ok(going)
}
