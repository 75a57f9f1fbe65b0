//! Axioms as slots hold them.
ghost use Rattle.std.specs.Prelude.{◌≡◌, ℕ, IfOk};
ghost use Rattle.std.specs.Ordering.{nat_cmp};
ghost use Rattle.std.specs.List.Sorted.{IsStrictlySortedBy};
ghost use Rattle.ad_theory.specs.Numbers.{among};
ghost use Rattle.ad_locality.specs.Signature.{occurrences};
ghost use Rattle.ad_codes.specs.Laws.{numbers_of};
ghost use Rattle.ad_flat.specs.Holds.{IsHeldBy};

use crate::numbers::numbers_of;
use ad_base::Memory;
use ad_codes::encode;
use ad_signature::signature;
use ad_slots::Slot;
use ad_tree::{Naming, Noted};
use std::alloc::Global;

// The axiom where entities have these numbers.
pub(crate) fn slot_of<N: Naming>(alloc: Global, noted: &Noted, names: &N) -> Result<Slot, Memory>
    ensures { IfOk result (λ slot. IsHeldBy (N.number_of names.now) noted.now.axiom slot) }
{
    let symbols = symbols_of(alloc, noted, names)?;
    let coded = encode(alloc, &noted.axiom, names)?;
    Ok(Slot::new(coded.test, coded.cells, symbols))
}

// The numbers of the axiom's entities, rising, each once.
fn symbols_of<N: Naming>(alloc: Global, noted: &Noted, names: &N) -> Result<Vec<u32>, Memory>
    ensures rising { IfOk result (λ list. IsStrictlySortedBy nat_cmp list.items) }
    ensures members { IfOk result (λ list. (n : ℕ) → among list.items n ≡ among (numbers_of (N.number_of names.now) (occurrences noted.now.axiom)) n) }
{
    let entities = signature(alloc, noted)?;
    numbers_of(alloc, entities.entities(), names)
}
