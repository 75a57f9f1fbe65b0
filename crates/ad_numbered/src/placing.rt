//! Slots for the logical axioms of an ontology.
ghost use Rattle.std.specs.Prelude.{◌≡◌, ◌<◌, ◌≤◌, [], length, IfOk, IsTrue};
ghost use Rattle.ad_base.specs.Limits.{AreWithinStandard};
ghost use Rattle.ad_syntax_laws.specs.OntologyModule.{is_logical_axiom, logical, values};
ghost use Rattle.ad_signature.specs.Numbering.{number_in};
ghost use Rattle.ad_slots.specs.Places.{least_free};
ghost use Rattle.ad_flat.specs.Universes.{held_in, most_in, symbols_in};
ghost use Rattle.ad_numbered.specs.Making.{IsPut, AreInOrder};

use ad_base::{Limits, Memory};
use ad_flat::FlatUniverse;
use ad_signature::Symbols;
use ad_tree::Noted;
use std::alloc::Global;
use std::sync::Arc;

// Puts an axiom that is a logical one into the least free slot, and says which it is.
fn place_one(
    alloc: Global,
    universe: &mut FlatUniverse,
    names: &Symbols,
    noted: &Noted,
) -> Result<Option<u32>, Memory>
    requires room { IsTrue (is_logical_axiom noted.now) → least_free (held_in universe.old) < most_in universe.old }
    requires limit { names.now.limit ≤ symbols_in universe.old }
    ensures put { IfOk result (IsPut (number_in names.now.names) noted.now (held_in universe.old) (held_in universe.new)) }
    ensures slots { most_in universe.new ≡ most_in universe.old }
    ensures symbols { symbols_in universe.new ≡ symbols_in universe.old }
{
    if !noted.is_logical() {
        return Ok(None);
    }
    let slot = universe.insert(alloc, noted, names)?;
    Ok(Some(slot))
}

// Puts the logical axioms into the slots from 0 on, in order, and says for each axiom in which slot it is.
fn place_all(
    alloc: Global,
    universe: &mut FlatUniverse,
    names: &Symbols,
    axioms: &[Arc<Noted>],
) -> Result<Vec<Option<u32>>, Memory>
    requires empty { held_in universe.old ≡ [] }
    requires room { length (logical (values axioms.now)) ≤ most_in universe.old }
    requires limit { names.now.limit ≤ symbols_in universe.old }
    ensures placed { IfOk result (λ slots. AreInOrder (number_in names.now.names) (values axioms.now) slots.items (held_in universe.new)) }
    ensures slots { most_in universe.new ≡ most_in universe.old }
    ensures symbols { symbols_in universe.new ≡ symbols_in universe.old }
{
    let mut slots = Vec::with_capacity(alloc, axioms.len())?;
    for noted in axioms {
        slots.push(place_one(alloc, universe, names, noted)?)?;
    }
    Ok(slots)
}

// The universe of the logical axioms, in the slots from 0 on, and for each axiom in which slot it is.
pub(crate) fn placed(
    alloc: Global,
    limits: &Limits,
    names: &Symbols,
    axioms: &[Arc<Noted>],
) -> Result<(FlatUniverse, Vec<Option<u32>>), Memory>
    requires standard { AreWithinStandard limits.now }
    requires few { length (logical (values axioms.now)) ≤ limits.now.axioms }
    requires limit { names.now.limit ≡ limits.now.entities }
    ensures placed { IfOk result (λ made. AreInOrder (number_in names.now.names) (values axioms.now) made.1.items (held_in made.0)) }
    ensures slots { IfOk result (λ made. most_in made.0 ≡ limits.now.axioms) }
    ensures symbols { IfOk result (λ made. symbols_in made.0 ≡ limits.now.entities) }
{
    let mut universe = FlatUniverse::empty(alloc, limits)?;
    let slots = place_all(alloc, &mut universe, names, axioms)?;
    Ok((universe, slots))
}
