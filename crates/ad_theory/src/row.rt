ghost use Rattle.std.specs.Prelude.{◌≡◌, IfOk, false, replicate};

use ad_base::Memory;
use ad_bits::Row;
use std::alloc::Global;

/// A row of this size without members. Its want of memory is that of the crates above.
pub fn empty_row(alloc: Global, size: u32) -> Result<Row, Memory>
    ensures { IfOk result (λ row. row ≡ replicate size false) }
{
    Row::new(alloc, size).map_err(|_| Memory)
}
