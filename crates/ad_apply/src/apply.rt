ghost use Rattle.std.specs.Prelude.{◌≡◌, ◌≤◌, IfOk, length};
ghost use Rattle.std.specs.List.{IsDistinct};
ghost use Rattle.ad_apply.specs.Same.{same_axiom};
ghost use Rattle.ad_apply.specs.Apply.{applied, counts_of};
ghost use Rattle.ad_syntax_laws.specs.OntologyModule.{logical, values};
ghost use Rattle.ad_apply.specs.Steps.{batch_in};
ghost use Rattle.ad_apply.specs.Working.{counts_in};

use crate::steps::Step;
use crate::working::{Done, Working, keep, named, seat_all, take_steps};
use ad_base::Memory;
use ad_tree::Noted;
use std::alloc::Global;
use std::sync::Arc;

/// The ontology after some operations, and what they did.
#[derive(Drop)]
pub struct Outcome {
    pub axioms: Vec<Arc<Noted>>,
    pub done: Done,
}

/// Applies operations to an ontology, one after another. The axioms that stay are shared with it.
pub fn apply_steps<'a>(
    alloc: Global,
    old: &'a [Arc<Noted>],
    steps: &'a [Step],
) -> Result<Outcome, Memory>
    requires few { length old.now ≤ 4294967295 }
    requires distinct { IsDistinct same_axiom (values old.now) }
    ensures axioms { IfOk result (λ o. values o.axioms.items ≡ applied (values old.now) (batch_in steps.now)) }
    ensures counts { IfOk result (λ o. counts_in o.done ≡ counts_of (values old.now) (batch_in steps.now)) }
{
    let base = old.len() as u32;
    // No batch has more operations than a u32 counts.
    if steps.len() > u32::MAX as usize {
        return Err(Memory);
    }
    let mut index = named(alloc, steps)?;
    seat_all(&mut index, old)?;
    let mut working = Working {
        index,
        base,
        added: Vec::new(alloc),
        done: Done {
            added: 0,
            already: 0,
            removed: 0,
            absent: 0,
        },
    };
    take_steps(&mut working, steps)?;
    let mut axioms = Vec::new(alloc);
    keep(&mut axioms, &working.index, 0, old)?;
    keep(&mut axioms, &working.index, base, working.added.as_slice())?;
    Ok(Outcome {
        axioms,
        done: working.done,
    })
}

/// How many axioms are logical.
pub fn logical_count(axioms: &[Arc<Noted>]) -> usize
    ensures { result ≡ length (logical (values axioms.now)) }
{
    let mut count = 0;
    for noted in axioms {
        if noted.is_logical() {
            count += 1;
        }
    }
    count
}
