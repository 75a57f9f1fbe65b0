ghost use Rattle.std.specs.Prelude.{◌↔◌, ℕ, nat_eq, IsTrue, IfOk};
ghost use Rattle.std.specs.List.{Contains, IsDistinct};

use ad_base::Memory;
use ad_theory::Universe;
use std::alloc::Global;

/// The live slots in the order of their numbers, for axioms that are listed in no other.
pub fn live_slots<U: Universe>(alloc: Global, universe: &U) -> Result<Vec<u32>, Memory>
    ensures live { IfOk result (λ order. (i : ℕ) → Contains order.items i ↔ IsTrue (U.is_live universe.now i)) }
    ensures distinct { IfOk result (λ order. IsDistinct nat_eq order.items) }
{
    let mut order = Vec::new(alloc);
    for slot in 0..universe.slots() {
        if universe.live(slot) {
            order.push(slot)?;
        }
    }
    Ok(order)
}
