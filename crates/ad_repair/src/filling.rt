//! Rows that are given to slots.
ghost use Rattle.std.specs.Prelude.{◌≡◌, ◌≢◌, ◌<◌, ◌&&◌, not, [], ℕ, None, IsTrue, OnOk, IfOk, length, slice_index_or};
ghost use Rattle.std.specs.Option.{option_map};
ghost use Rattle.std.specs.Arc.{arc_value};
ghost use Rattle.ad_base.specs.declared.limits.Kind.{Kind};
ghost use Rattle.ad_bits.specs.Rows.{has};
ghost use Rattle.ad_tables.specs.Rows.{of_kind, row_of};
ghost use Rattle.ad_repair.specs.Plans.{AreNumbersBelow, IsFilled, first_of, row_where};

use ad_base::{Kind, Memory};
use ad_bits::Row;
use ad_tables::{Results, Rows};
use ad_theory::Universe;
use std::sync::Arc;

// Gives the slot the row, where there is one.
fn put_some(rows: &mut Rows, kind: Kind, slot: u32, row: Option<Arc<Row>>)
    requires { slot < length (of_kind rows.old kind) }
    ensures here { row_of rows.new kind slot ≡ first_of (option_map (λ r. arc_value r) row) (row_of rows.old kind slot) }
    ensures others { (i : ℕ) → i ≢ slot → row_of rows.new kind i ≡ row_of rows.old kind i }
    ensures kinds { (other : Kind) → other ≢ kind → of_kind rows.new other ≡ of_kind rows.old other }
    ensures long { (any : Kind) → length (of_kind rows.new any) ≡ length (of_kind rows.old any) }
{
    if let Some(row) = row {
        rows.put(kind, slot, row);
    }
}

// Whether the slot's row stays: its axiom is live, and its module isn't to be found.
fn is_kept<U: Universe>(new: &U, wanted: &Row, slot: u32) -> bool
    requires slot { slot < U.slot_count new.now }
    requires wanted { length wanted.now ≡ U.slot_count new.now }
    ensures { result ≡ (U.is_live new.now slot && not (has wanted.now slot)) }
{
    new.live(slot) && !wanted.has(slot)
}

// The slot's row of this kind, where it stays.
fn kept_row<U: Universe>(
    rows: &Rows,
    new: &U,
    kind: Kind,
    wanted: &Row,
    slot: u32,
) -> Result<Option<Arc<Row>>, Memory>
    requires slot { slot < U.slot_count new.now }
    requires wanted { length wanted.now ≡ U.slot_count new.now }
    ensures { IfOk result (λ row. option_map (λ r. arc_value r) row ≡
        row_where (U.is_live new.now slot && not (has wanted.now slot)) (row_of rows.now kind slot)) }
{
    if !is_kept(new, wanted, slot) {
        return Ok(None);
    }
    rows.share(kind, slot)
}

// Keeps the rows of this kind of those live slots whose modules are not to be found.
pub(crate) fn keep<U: Universe>(
    kept: &mut Rows,
    rows: &Rows,
    new: &U,
    kind: Kind,
    wanted: &Row,
) -> Result<(), Memory>
    requires kept { length (of_kind kept.old kind) ≡ U.slot_count new.now }
    requires wanted { length wanted.now ≡ U.slot_count new.now }
    ensures { OnOk result (IsFilled kind (λ i. row_where (U.is_live new.now i && not (has wanted.now i)) (row_of rows.now kind i))
        kept.old kept.new (U.slot_count new.now)) }
{
    for slot in 0..new.slots() {
        let row = kept_row(rows, new, kind, wanted, slot)?;
        put_some(kept, kind, slot, row);
    }
    Ok(())
}

// The number of the slot's task, where it has one.
fn number_at(numbers: &[Option<u32>], slot: u32) -> Option<u32>
    ensures { result ≡ slice_index_or numbers.now slot None }
{
    match numbers.get(slot as usize) {
        Some(Some(number)) => Some(*number),
        _ => None,
    }
}

// The result of the slot's task, where it has one.
fn result_of(
    numbers: &[Option<u32>],
    results: &Results,
    slot: u32,
) -> Result<Option<Arc<Row>>, Memory>
    requires { AreNumbersBelow (length results.now) numbers.now }
    ensures { IfOk result (λ row. option_map (λ r. arc_value r) row ≡
        option_map (λ t. slice_index_or results.now t []) (slice_index_or numbers.now slot None)) }
{
    match number_at(numbers, slot) {
        Some(number) => Ok(Some(results.share(number)?)),
        None => Ok(None),
    }
}

// Gives each slot with a task of this kind the task's result.
pub(crate) fn fill(
    rows: &mut Rows,
    kind: Kind,
    numbers: &[Option<u32>],
    results: &Results,
) -> Result<(), Memory>
    requires { AreNumbersBelow (length results.now) numbers.now }
    ensures { OnOk result (IsFilled kind (λ i. option_map (λ t. slice_index_or results.now t []) (slice_index_or numbers.now i None))
        rows.old rows.new (length (of_kind rows.old kind))) }
{
    for slot in 0..rows.slots() {
        let row = result_of(numbers, results, slot)?;
        put_some(rows, kind, slot, row);
    }
    Ok(())
}
