ghost use Rattle.std.specs.Prelude.{◌≡◌, ℕ, length, IfOk};
ghost use Rattle.ad_bits.specs.Rows.{has};

use ad_base::Memory;
use ad_bits::Row;
use ad_theory::{Universe, empty_row};
use std::alloc::Global;

// The row of the live slots.
pub(crate) fn live_slots<U: Universe>(alloc: Global, universe: &U) -> Result<Row, Memory>
    ensures size { IfOk result (λ row. length row ≡ U.slot_count universe.now) }
    ensures members { IfOk result (λ row. (i : ℕ) → has row i ≡ U.is_live universe.now i) }
{
    let mut row = empty_row(alloc, universe.slots())?;
    for slot in 0..universe.slots() {
        if universe.live(slot) {
            row.set(slot);
        }
    }
    Ok(row)
}
