ghost use Rattle.std.specs.Prelude.{◌≡◌, ◌<◌, None, Some, IfOk, IfSome, length, slice_index_or};

use ad_base::Memory;
use ad_bits::Row;
use std::alloc::Global;

// The module for an axiom's signature, and that signature with the module's symbols.
#[derive(Drop)]
pub(crate) struct Whole {
    pub(crate) row: Row,
    pub(crate) closure: Row,
}

// A row with the members of another.
pub(crate) fn copied(alloc: Global, row: &Row) -> Result<Row, Memory>
    ensures { IfOk result (λ copy. copy ≡ row.now) }
{
    Row::copied(alloc, row).map_err(|_| Memory)
}

// What the table has for a slot.
pub(crate) fn whole_at(wholes: &[Option<Whole>], slot: u32) -> Option<&Whole>
    requires { slot < length wholes.now }
    ensures { IfSome result (λ whole. slice_index_or wholes.now slot None ≡ Some whole.now) }
{
    wholes[slot as usize].as_ref()
}

impl Whole {
    // Copies of these rows.
    pub(crate) fn of(alloc: Global, row: &Row, closure: &Row) -> Result<Whole, Memory>
        ensures row { IfOk result (λ whole. whole.row ≡ row.now) }
        ensures closure { IfOk result (λ whole. whole.closure ≡ closure.now) }
    {
        Ok(Whole {
            row: copied(alloc, row)?,
            closure: copied(alloc, closure)?,
        })
    }
}
