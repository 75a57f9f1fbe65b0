//! The ontology of an edition that is about to follow another.
ghost use Rattle.std.specs.Prelude.{◌≡◌, ◌+◌, ◌<◌, ◌≤◌, None, length, IfOk, IfErr, IsOk, OnOk};
ghost use Rattle.std.specs.List.{IsDistinct};
ghost use Rattle.ad_base.specs.Limits.{AreWithinStandard};
ghost use Rattle.ad_syntax_laws.specs.OntologyModule.{logical, values};
ghost use Rattle.ad_apply.specs.Same.{same_axiom};
ghost use Rattle.ad_numbered.specs.Numbered.{entities_of};
ghost use Rattle.ad_edition.specs.Edition.{FitsLimits, IsSound, limited_edition};
ghost use Rattle.ad_edition.specs.Limit.{HasManyEntities, IsRefusedBy, passed, passed_by_size};
ghost use Rattle.ad_edition.specs.declared.receipts.Refused.TheVariants as refusals;

use crate::receipts::Refused;
use ad_apply::{document_bytes, logical_count};
use ad_base::{Limits, Which};
use ad_numbered::{NumberRefused, NumberedOntology};
use ad_tree::Noted;
use std::alloc::Global;
use std::hash::RandomState;
use std::sync::Arc;

// An ontology in numbered slots, with how many of its axioms are logical and how many bytes its document has.
#[derive(Drop)]
pub(crate) struct Measured {
    pub(crate) ontology: NumberedOntology,
    pub(crate) count: u32,
    pub(crate) bytes: u64,
}

// The ontology with these axioms, if it passes no limit behind the edition of this number.
pub(crate) fn next_ontology(
    alloc: Global,
    limits: Limits,
    number: u32,
    keys: RandomState,
    axioms: Vec<Arc<Noted>>,
) -> Result<Measured, Refused>
    requires standard { AreWithinStandard limits }
    requires distinct { IsDistinct same_axiom (values axioms.items) }
    ensures axioms { IfOk result (λ next. next.ontology.axioms ≡ values axioms.items) }
    ensures sound { IfOk result (λ next. IsSound (limited_edition (number + 1) next.ontology.axioms limits) next.count next.bytes) }
    ensures fits { IfOk result (λ next. FitsLimits limits next.ontology) }
    ensures within { IsOk result → passed limits number (values axioms.items) ≡ None }
    ensures refused { IfErr result (IsRefusedBy (passed limits number (values axioms.items)) number) }
{
    // No edition has more axioms than a u32 counts.
    if axioms.len() > u32::MAX as usize {
        return Err(Refused::Memory);
    }
    let count = logical_count(axioms.as_slice());
    let bytes = document_bytes(axioms.as_slice());
    check(number, Which::Axioms, limits.axioms.into(), count as u64)?;
    let ontology = numbered(alloc, limits, number, keys, axioms)?;
    match check_size(limits, number, bytes) {
        Ok(()) => Ok(Measured {
            ontology,
            count: count as u32,
            bytes,
        }),
        Err(why) => {
            drop(ontology);
            Err(why)
        }
    }
}

// Refuses so many bytes above their limit, and else a number after this one above its limit.
fn check_size(limits: Limits, number: u32, bytes: u64) -> Result<(), Refused>
    ensures bytes { OnOk result (bytes ≤ limits.bytes) }
    ensures editions { OnOk result (number + 1 ≤ limits.editions) }
    ensures refused { IfErr result (IsRefusedBy (passed_by_size limits number bytes) number) }
{
    check(number, Which::Bytes, limits.bytes, bytes)?;
    check(
        number,
        Which::Editions,
        limits.editions.into(),
        u64::from(number) + 1,
    )
}

// Refuses a count above this limit, on the edition of this number.
fn check(number: u32, which: Which, limit: u64, count: u64) -> Result<(), Refused>
    ensures within { OnOk result (count ≤ limit) }
    ensures refused { IfErr result (λ cause. (limit < count) × (cause ≡ refusals.Limit number which count)) }
{
    if count > limit {
        return Err(Refused::Limit {
            edition: number,
            which,
            count,
        });
    }
    Ok(())
}

// The ontology in numbered slots, if it hasn't too many entities.
fn numbered(
    alloc: Global,
    limits: Limits,
    number: u32,
    keys: RandomState,
    axioms: Vec<Arc<Noted>>,
) -> Result<NumberedOntology, Refused>
    requires standard { AreWithinStandard limits }
    requires few { length (logical (values axioms.items)) ≤ limits.axioms }
    ensures axioms { IfOk result (λ ontology. ontology.axioms ≡ values axioms.items) }
    ensures fits { IfOk result (FitsLimits limits) }
    ensures within { IsOk result → length (entities_of (logical (values axioms.items))) ≤ limits.entities }
    ensures refused { IfErr result (HasManyEntities limits number (values axioms.items)) }
{
    match NumberedOntology::of(alloc, keys, &limits, axioms) {
        Ok(ontology) => Ok(ontology),
        Err(NumberRefused::Entities { count }) => Err(Refused::Limit {
            edition: number,
            which: Which::Entities,
            count,
        }),
        Err(NumberRefused::Memory) => Err(Refused::Memory),
    }
}
