ghost use Rattle.std.specs.Prelude.{◌≡◌, ◌≢◌, ◌<◌, ◌≤◌, ℕ, Some, IsSome, IfOk, IfErr, OnOk, OnErr, IsTrue, IsFalse};
ghost use Rattle.ad_entity.specs.Entities.{has_entity};
ghost use Rattle.ad_entity.specs.declared.entities.Entity.{Entity};
ghost use Rattle.ad_locality.specs.Signature.{in_signature};
ghost use Rattle.ad_signature.specs.Numbering.{number_in};
ghost use Rattle.ad_slots.specs.Places.{slot_at, least_free};
ghost use Rattle.ad_flat.specs.Holds.{Holds};
ghost use Rattle.ad_flat.specs.Refused.{IsRefusedForOneOf};
ghost use Rattle.ad_flat.specs.Universes.{held_in, most_in, symbols_in};

use crate::flat::FlatUniverse;
use ad_base::Memory;
use ad_signature::{SymbolRefused, Symbols, signature};
use ad_tree::{Entity, Noted};
use std::alloc::Global;

// Enters each of these entities, and no others.
fn enter_all(alloc: Global, symbols: &mut Symbols, entities: &[Entity]) -> Result<(), SymbolRefused>
    ensures named { OnOk result ((e : Entity) → IsTrue (has_entity entities.now e) → IsSome (number_in symbols.new.names e)) }
    ensures refused { IfErr result (IsRefusedForOneOf (has_entity entities.now) symbols.old.limit symbols.new.names) }
    ensures only { (e : Entity) → IsFalse (has_entity entities.now e) → number_in symbols.new.names e ≡ number_in symbols.old.names e }
    ensures kept { (e : Entity) (n : ℕ) → number_in symbols.old.names e ≡ Some n → number_in symbols.new.names e ≡ Some n }
    ensures limit { symbols.new.limit ≡ symbols.old.limit }
{
    for entity in entities {
        symbols.enter(alloc, entity)?;
    }
    Ok(())
}

/// Enters the entities of an axiom, and puts it with their numbers into the least free slot. After a refusal some of its
/// entities may have been entered.
pub fn add(
    alloc: Global,
    universe: &mut FlatUniverse,
    symbols: &mut Symbols,
    noted: &Noted,
) -> Result<u32, SymbolRefused>
    requires room { least_free (held_in universe.old) < most_in universe.old }
    requires limit { symbols.old.limit ≤ symbols_in universe.old }
    ensures next { IfOk result (λ i. i ≡ least_free (held_in universe.old)) }
    ensures held { IfOk result (λ i. Holds (number_in symbols.new.names) (held_in universe.new) i noted.now.axiom) }
    ensures others { IfOk result (λ i. (j : ℕ) → j ≢ i → slot_at (held_in universe.new) j ≡ slot_at (held_in universe.old) j) }
    ensures err { OnErr result (held_in universe.new ≡ held_in universe.old) }
    ensures named { OnOk result ((e : Entity) → IsTrue (in_signature noted.now.axiom e) → IsSome (number_in symbols.new.names e)) }
    ensures refused { IfErr result (IsRefusedForOneOf (in_signature noted.now.axiom) symbols.old.limit symbols.new.names) }
    ensures only { (e : Entity) → IsFalse (in_signature noted.now.axiom e) → number_in symbols.new.names e ≡ number_in symbols.old.names e }
    ensures kept { (e : Entity) (n : ℕ) → number_in symbols.old.names e ≡ Some n → number_in symbols.new.names e ≡ Some n }
    ensures limit { symbols.new.limit ≡ symbols.old.limit }
    ensures slots { most_in universe.new ≡ most_in universe.old }
    ensures symbols { symbols_in universe.new ≡ symbols_in universe.old }
{
    let entities = match signature(alloc, noted) {
        Ok(entities) => entities,
        Err(Memory) => return Err(SymbolRefused::Memory),
    };
    enter_all(alloc, symbols, entities.entities())?;
    match universe.insert(alloc, noted, symbols) {
        Ok(slot) => Ok(slot),
        Err(Memory) => Err(SymbolRefused::Memory),
    }
}
