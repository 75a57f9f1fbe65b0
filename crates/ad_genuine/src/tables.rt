ghost use Rattle.std.specs.Prelude.{◌≡◌, ◌≢◌, ◌<◌, ◌^◌, ℕ, [], Some, None, length, slice_index_or, IfOk, OnOk};
ghost use Rattle.std.specs.Option.{option_map};
ghost use Rattle.ad_base.specs.declared.limits.Kind.{Kind};
ghost use Rattle.ad_tables.specs.Rows.{of_kind, row_of};
ghost use Rattle.ad_genuine.specs.Found.{rows_of_kind};

use crate::found::Found;
use ad_base::{Kind, Memory};
use ad_tables::Rows;
use std::alloc::Global;

// Gives the slot the rows of its group, where it has one.
fn put_group(rows: &mut Rows, slot: u32, group: Option<u32>, found: &Found) -> Result<(), Memory>
    requires slot { (kind : Kind) → slot < length (of_kind rows.old kind) }
    requires empty { (kind : Kind) → row_of rows.old kind slot ≡ None }
    requires group { (kind : Kind) (g : ℕ) → group ≡ Some g → g < length (rows_of_kind found.now kind) }
    ensures here { OnOk result ((kind : Kind) →
        row_of rows.new kind slot ≡ option_map (λ g. slice_index_or (rows_of_kind found.now kind) g []) group) }
    ensures others { OnOk result ((kind : Kind) (i : ℕ) → i ≢ slot → row_of rows.new kind i ≡ row_of rows.old kind i) }
    ensures size { OnOk result ((kind : Kind) → length (of_kind rows.new kind) ≡ length (of_kind rows.old kind)) }
{
    let Some(group) = group else {
        return Ok(());
    };
    rows.put(Kind::Bottom, slot, found.share(Kind::Bottom, group)?);
    rows.put(Kind::Top, slot, found.share(Kind::Top, group)?);
    rows.put(Kind::Star, slot, found.share(Kind::Star, group)?);
    Ok(())
}

// The rows of all slots, from those of their groups.
pub(crate) fn rows_for(alloc: Global, groups: &[Option<u32>], found: &Found) -> Result<Rows, Memory>
    requires few { length groups.now < 2 ^ 32 }
    requires groups { (kind : Kind) (i g : ℕ) → slice_index_or groups.now i None ≡ Some g → g < length (rows_of_kind found.now kind) }
    ensures size { IfOk result (λ rows. (kind : Kind) → length (of_kind rows kind) ≡ length groups.now) }
    ensures rows { IfOk result (λ rows. (kind : Kind) (i : ℕ) →
        row_of rows kind i ≡ option_map (λ g. slice_index_or (rows_of_kind found.now kind) g []) (slice_index_or groups.now i None)) }
{
    let mut rows = Rows::new(alloc, groups.len() as u32)?;
    for slot in 0..groups.len() {
        put_group(&mut rows, slot as u32, groups[slot], found)?;
    }
    Ok(rows)
}
