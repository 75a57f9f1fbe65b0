ghost use Rattle.std.specs.Prelude.{◌≡◌, ◌≤◌, length, IfOk, IfErr};
ghost use Rattle.std.specs.List.{range_with_len};
ghost use Rattle.ad_base.specs.Limits.{AreWithinStandard};
ghost use Rattle.ad_syntax_laws.specs.OntologyModule.{logical, values};
ghost use Rattle.ad_signature.specs.Numbering.{number_in};
ghost use Rattle.ad_flat.specs.Universes.{held_in, most_in, symbols_in};
ghost use Rattle.ad_numbered.specs.Making.{AreEntered, AreInOrder};
ghost use Rattle.ad_numbered.specs.Numbered.{signatures, order_of};
ghost use Rattle.ad_numbered.specs.Refused.{IsUnnumbered};

use crate::entering::number_entities;
use crate::ontology::NumberedOntology;
use crate::placing::placed;
use crate::refused::NumberRefused;
use ad_base::{Limits, Memory};
use ad_flat::FlatUniverse;
use ad_signature::Symbols;
use ad_tree::Noted;
use std::alloc::Global;
use std::hash::RandomState;
use std::sync::Arc;

impl NumberedOntology {
    /// Numbers an ontology anew: its logical axioms in slots from 0 on, in its order, and their entities.
    pub fn of(
        alloc: Global,
        keys: RandomState,
        limits: &Limits,
        axioms: Vec<Arc<Noted>>,
    ) -> Result<NumberedOntology, NumberRefused>
        requires standard { AreWithinStandard limits.now }
        requires few { length (logical (values axioms.items)) ≤ limits.now.axioms }
        ensures axioms { IfOk result (λ ontology. ontology.axioms ≡ values axioms.items) }
        ensures order { IfOk result (λ ontology. order_of ontology ≡ range_with_len 0 (length (logical ontology.axioms))) }
        ensures most { IfOk result (λ ontology. ontology.most ≡ limits.now.axioms) }
        ensures symbols { IfOk result (λ ontology. ontology.symbols ≡ limits.now.entities) }
        ensures refused { IfErr result (IsUnnumbered limits.now (values axioms.items)) }
    {
        match number_and_place(alloc, keys, limits, axioms.as_slice()) {
            Ok(parts) => Ok(NumberedOntology {
                keys,
                axioms,
                slots: parts.slots,
                names: parts.names,
                universe: parts.universe,
            }),
            Err(why) => {
                drop(axioms);
                Err(why)
            }
        }
    }
}

// What an ontology has beside its axioms.
#[derive(Drop)]
struct Parts {
    slots: Vec<Option<u32>>,
    names: Symbols,
    universe: FlatUniverse,
}

fn number_and_place(
    alloc: Global,
    keys: RandomState,
    limits: &Limits,
    axioms: &[Arc<Noted>],
) -> Result<Parts, NumberRefused>
    requires standard { AreWithinStandard limits.now }
    requires few { length (logical (values axioms.now)) ≤ limits.now.axioms }
    ensures entered { IfOk result (λ parts. AreEntered (signatures (logical (values axioms.now))) parts.names.names) }
    ensures placed { IfOk result (λ parts. AreInOrder (number_in parts.names.names) (values axioms.now) parts.slots.items (held_in parts.universe)) }
    ensures limit { IfOk result (λ parts. parts.names.limit ≡ limits.now.entities) }
    ensures most { IfOk result (λ parts. most_in parts.universe ≡ limits.now.axioms) }
    ensures symbols { IfOk result (λ parts. symbols_in parts.universe ≡ limits.now.entities) }
    ensures refused { IfErr result (IsUnnumbered limits.now (values axioms.now)) }
{
    let names = number_entities(alloc, keys, limits, axioms)?;
    match placed(alloc, limits, &names, axioms) {
        Ok((universe, slots)) => Ok(Parts {
            slots,
            names,
            universe,
        }),
        Err(Memory) => {
            drop(names);
            Err(NumberRefused::Memory)
        }
    }
}
