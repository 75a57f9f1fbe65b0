//! Numbers for the entities of an ontology.
ghost use Rattle.std.specs.Prelude.{◌≡◌, ◌<◌, ◌++◌, [], ◌∷◌, List, length, IfOk, IfErr, OnOk};
ghost use Rattle.ad_base.specs.Limits.{AreWithinStandard};
ghost use Rattle.ad_entity.specs.declared.entities.Entity.{Entity};
ghost use Rattle.ad_syntax_laws.specs.OntologyModule.{logical, values};
ghost use Rattle.ad_signature.specs.Firsts.{signature_of};
ghost use Rattle.ad_numbered.specs.Making.{AreEntered, AreTooMany};
ghost use Rattle.ad_numbered.specs.Numbered.{signatures, entities_of};
ghost use Rattle.ad_numbered.specs.Refused.{IsUnnumbered};

use crate::refused::NumberRefused;
use ad_base::{Limits, Memory};
use ad_signature::{SymbolRefused, Symbols, signature};
use ad_tree::{Entity, Noted};
use std::alloc::Global;
use std::hash::RandomState;
use std::sync::Arc;

// Gives each of these entities that has no number one.
fn enter_entities(
    alloc: Global,
    symbols: &mut Symbols,
    entities: &[Entity],
) -> Result<(), SymbolRefused>
    ensures entered { OnOk result ((before : List Entity) → AreEntered before symbols.old.names → AreEntered (before ++ entities.now) symbols.new.names) }
    ensures refused { IfErr result (λ why. (before : List Entity) → AreEntered before symbols.old.names → AreTooMany symbols.old.limit (before ++ entities.now) why) }
    ensures limit { symbols.new.limit ≡ symbols.old.limit }
{
    for entity in entities {
        symbols.enter(alloc, entity)?;
    }
    Ok(())
}

// Gives each entity in the signature of an axiom that has no number one.
fn enter_signature(alloc: Global, symbols: &mut Symbols, noted: &Noted) -> Result<(), SymbolRefused>
    ensures entered { OnOk result ((before : List Entity) → AreEntered before symbols.old.names → AreEntered (before ++ signature_of noted.now.axiom) symbols.new.names) }
    ensures refused { IfErr result (λ why. (before : List Entity) → AreEntered before symbols.old.names → AreTooMany symbols.old.limit (before ++ signature_of noted.now.axiom) why) }
    ensures limit { symbols.new.limit ≡ symbols.old.limit }
{
    match signature(alloc, noted) {
        Ok(entities) => enter_entities(alloc, symbols, entities.entities()),
        Err(Memory) => Err(SymbolRefused::Memory),
    }
}

// The same for an axiom that is a logical one; for a carried one nothing.
fn enter_logical(alloc: Global, symbols: &mut Symbols, noted: &Noted) -> Result<(), SymbolRefused>
    ensures entered { OnOk result ((before : List Entity) → AreEntered before symbols.old.names → AreEntered (before ++ signatures (logical (noted.now ∷ []))) symbols.new.names) }
    ensures refused { IfErr result (λ why. (before : List Entity) → AreEntered before symbols.old.names → AreTooMany symbols.old.limit (before ++ signatures (logical (noted.now ∷ []))) why) }
    ensures limit { symbols.new.limit ≡ symbols.old.limit }
{
    if noted.is_logical() {
        enter_signature(alloc, symbols, noted)
    } else {
        Ok(())
    }
}

// Gives the entities in the signatures of the logical axioms numbers.
fn enter_all(
    alloc: Global,
    symbols: &mut Symbols,
    axioms: &[Arc<Noted>],
) -> Result<(), SymbolRefused>
    requires none { AreEntered [] symbols.old.names }
    ensures entered { OnOk result (AreEntered (signatures (logical (values axioms.now))) symbols.new.names) }
    ensures refused { IfErr result (AreTooMany symbols.old.limit (signatures (logical (values axioms.now)))) }
    ensures limit { symbols.new.limit ≡ symbols.old.limit }
{
    for noted in axioms {
        enter_logical(alloc, symbols, noted)?;
    }
    Ok(())
}

// How many entities are in the signatures of the logical axioms. No memory holds more than a u32 counts.
fn count_entities(alloc: Global, keys: RandomState, axioms: &[Arc<Noted>]) -> Result<u32, Memory>
    ensures { IfOk result (λ count. count ≡ length (entities_of (logical (values axioms.now)))) }
{
    let mut symbols = Symbols::new(alloc, keys, u32::MAX)?;
    let entered = enter_all(alloc, &mut symbols, axioms);
    let count = symbols.len();
    drop(symbols);
    match entered {
        Ok(()) => Ok(count),
        Err(_) => Err(Memory),
    }
}

// Why an ontology with more entities than the limit isn't numbered.
fn too_many(
    alloc: Global,
    keys: RandomState,
    limits: &Limits,
    axioms: &[Arc<Noted>],
) -> NumberRefused
    requires { limits.now.entities < length (entities_of (logical (values axioms.now))) }
    ensures { IsUnnumbered limits.now (values axioms.now) result }
{
    match count_entities(alloc, keys, axioms) {
        Ok(count) => NumberRefused::Entities {
            count: u64::from(count),
        },
        Err(Memory) => NumberRefused::Memory,
    }
}

// Why an ontology isn't numbered whose entities were not all entered.
fn refusal(
    alloc: Global,
    keys: RandomState,
    limits: &Limits,
    axioms: &[Arc<Noted>],
    why: SymbolRefused,
) -> NumberRefused
    requires { AreTooMany limits.now.entities (signatures (logical (values axioms.now))) why }
    ensures { IsUnnumbered limits.now (values axioms.now) result }
{
    match why {
        SymbolRefused::Full { .. } => too_many(alloc, keys, limits, axioms),
        SymbolRefused::Memory => NumberRefused::Memory,
    }
}

// Numbers for the entities in the signatures of the logical axioms.
pub(crate) fn number_entities(
    alloc: Global,
    keys: RandomState,
    limits: &Limits,
    axioms: &[Arc<Noted>],
) -> Result<Symbols, NumberRefused>
    ensures entered { IfOk result (λ symbols. AreEntered (signatures (logical (values axioms.now))) symbols.names) }
    ensures limit { IfOk result (λ symbols. symbols.limit ≡ limits.now.entities) }
    ensures refused { IfErr result (IsUnnumbered limits.now (values axioms.now)) }
{
    let mut symbols = Symbols::new(alloc, keys, limits.entities)?;
    match enter_all(alloc, &mut symbols, axioms) {
        Ok(()) => Ok(symbols),
        Err(why) => {
            drop(symbols);
            Err(refusal(alloc, keys, limits, axioms, why))
        }
    }
}
