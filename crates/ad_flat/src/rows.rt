//! Rows of slots.
ghost use Rattle.std.specs.Prelude.{◌≡◌, ◌<◌, ℕ, length, IfOk, IsTrue};
ghost use Rattle.ad_bits.specs.Rows.{has};

use ad_base::Memory;
use ad_bits::Row;
use ad_theory::empty_row;
use std::alloc::Global;

// The row of all slots below the size.
pub(crate) fn full_row(alloc: Global, size: u32) -> Result<Row, Memory>
    ensures size { IfOk result (λ row. length row ≡ size) }
    ensures full { IfOk result (λ row. (i : ℕ) → i < size → IsTrue (has row i)) }
{
    let mut row = empty_row(alloc, size)?;
    for i in 0..size {
        row.set(i);
    }
    Ok(row)
}

// Another row of the same slots.
pub(crate) fn copy_row(alloc: Global, row: &Row) -> Result<Row, Memory>
    ensures { IfOk result (λ copy. copy ≡ row.now) }
{
    Row::copied(alloc, row).map_err(|_| Memory)
}
