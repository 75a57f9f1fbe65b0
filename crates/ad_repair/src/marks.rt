//! The slots whose genuine modules are to be found after a change.
ghost use Rattle.std.specs.Prelude.{◌≡◌, ◌≤◌, ◌<◌, ℕ, Bool, List, IsTrue, IsFalse, IfOk, length};
ghost use Rattle.ad_base.specs.declared.limits.Kind.{Kind};
ghost use Rattle.ad_bits.specs.Rows.{has};
ghost use Rattle.ad_decomposition.specs.Affected.{Theory, IsChangeOfSlots, affected, to_find};
ghost use Rattle.ad_decomposition.specs.Tables.{AreGenuine, is_in_row_of};
ghost use Rattle.ad_repair.specs.Changes.{theory_of, change_of, stays};
ghost use Rattle.ad_repair.specs.Marks.{AreForeign, AreForeignOver, AllStay, foreign_of, marked_of};
ghost use Rattle.ad_repair.specs.Touches.{AreOver, HaveLiveRows};

use crate::foreign::foreign_slots;
use crate::setting::set_where;
use crate::touched::touch;
use ad_base::{Kind, Memory, Side};
use ad_bits::Row;
use ad_tables::Rows;
use ad_theory::{Tally, Universe, empty_row};
use std::alloc::Global;

// For each side the slots to whose rows something that was added is foreign.
#[derive(Drop)]
pub(crate) struct Foreign {
    bottom: Row,
    top: Row,
}

// For each kind the slots whose modules are to be found.
#[derive(Drop)]
pub(crate) struct Marks {
    pub(crate) bottom: Row,
    pub(crate) top: Row,
    pub(crate) star: Row,
}

// Whether something is foreign to the slot's row of this kind: to a star module only where both sides have something.
fn is_foreign_of(foreign: &Foreign, kind: Kind, slot: u32) -> bool
    requires bottom { slot < length foreign.now.bottom }
    requires top { slot < length foreign.now.top }
    ensures { result ≡ foreign_of foreign.now kind slot }
{
    match kind {
        Kind::Bottom => foreign.bottom.has(slot),
        Kind::Top => foreign.top.has(slot),
        Kind::Star => foreign.bottom.has(slot) && foreign.top.has(slot),
    }
}

// Whether the slot's row of this kind has one of these slots.
fn has_some(rows: &Rows, kind: Kind, slot: u32, slots: &Row) -> bool
    requires { AreOver (length slots.now) rows.now }
    ensures some { IsTrue result → (k : ℕ) × IsTrue (is_in_row_of rows.now kind slot k) × IsTrue (has slots.now k) }
    ensures none { IsFalse result → (k : ℕ) → IsTrue (is_in_row_of rows.now kind slot k) → IsFalse (has slots.now k) }
{
    match rows.row(kind, slot) {
        Some(row) => row.meets(slots),
        None => false,
    }
}

// Whether the change may have given the slot another module of this kind.
fn is_affected(
    rows: &Rows,
    kind: Kind,
    slot: u32,
    removed: &Row,
    added: &Row,
    foreign: &Foreign,
) -> bool
    requires slot { slot < length removed.now }
    requires added { length added.now ≡ length removed.now }
    requires foreign { AreForeignOver (length removed.now) foreign.now }
    requires rows { AreOver (length removed.now) rows.now }
    ensures { (before after : Theory) (slots : ℕ) → let change = change_of before after removed.now added.now slots in
        slots ≡ length removed.now → AreForeign change rows.now foreign.now → (IsFalse (has added.now slot) → IsTrue (stays change slot)) →
        result ≡ affected change rows.now kind slot }
{
    if added.has(slot) {
        return true;
    }
    if is_foreign_of(foreign, kind, slot) {
        return true;
    }
    has_some(rows, kind, slot, removed)
}

// Whether the slot's module of this kind is to be found.
fn is_to_find<U: Universe>(
    rows: &Rows,
    new: &U,
    kind: Kind,
    slot: u32,
    removed: &Row,
    added: &Row,
    foreign: &Foreign,
) -> bool
    requires slot { slot < U.slot_count new.now }
    requires removed { length removed.now ≡ U.slot_count new.now }
    requires added { length added.now ≡ U.slot_count new.now }
    requires foreign { AreForeignOver (U.slot_count new.now) foreign.now }
    requires rows { AreOver (U.slot_count new.now) rows.now }
    ensures { (before : Theory) (slots : ℕ) →
        let change = change_of before (theory_of (U.symbols_of new.now) (U.is_local new.now) (U.is_live new.now)) removed.now added.now slots in
        slots ≡ U.slot_count new.now → AreForeign change rows.now foreign.now → AllStay change →
        result ≡ to_find change rows.now kind slot }
{
    new.live(slot) && is_affected(rows, kind, slot, removed, added, foreign)
}

// The slots whose modules of this kind are to be found.
fn marked<U: Universe>(
    alloc: Global,
    rows: &Rows,
    new: &U,
    kind: Kind,
    removed: &Row,
    added: &Row,
    foreign: &Foreign,
) -> Result<Row, Memory>
    requires removed { length removed.now ≡ U.slot_count new.now }
    requires added { length added.now ≡ U.slot_count new.now }
    requires foreign { AreForeignOver (U.slot_count new.now) foreign.now }
    requires rows { AreOver (U.slot_count new.now) rows.now }
    ensures size { IfOk result (λ row. length row ≡ U.slot_count new.now) }
    ensures members { IfOk result (λ row. (before : Theory) (slots : ℕ) →
        let change = change_of before (theory_of (U.symbols_of new.now) (U.is_local new.now) (U.is_live new.now)) removed.now added.now slots in
        slots ≡ U.slot_count new.now → AreForeign change rows.now foreign.now → AllStay change →
        (i : ℕ) → has row i ≡ to_find change rows.now kind i) }
{
    let mut row = empty_row(alloc, new.slots())?;
    for slot in 0..new.slots() {
        let wanted = is_to_find(rows, new, kind, slot, removed, added, foreign);
        set_where(&mut row, slot, wanted);
    }
    Ok(row)
}

// The same for each kind.
fn marked_by_kind<U: Universe>(
    alloc: Global,
    rows: &Rows,
    new: &U,
    removed: &Row,
    added: &Row,
    foreign: &Foreign,
) -> Result<Marks, Memory>
    requires removed { length removed.now ≡ U.slot_count new.now }
    requires added { length added.now ≡ U.slot_count new.now }
    requires foreign { AreForeignOver (U.slot_count new.now) foreign.now }
    requires rows { AreOver (U.slot_count new.now) rows.now }
    ensures size { IfOk result (λ marks. (kind : Kind) → length (marked_of marks kind) ≡ U.slot_count new.now) }
    ensures members { IfOk result (λ marks. (before : Theory) (slots : ℕ) →
        let change = change_of before (theory_of (U.symbols_of new.now) (U.is_local new.now) (U.is_live new.now)) removed.now added.now slots in
        slots ≡ U.slot_count new.now → AreForeign change rows.now foreign.now → AllStay change →
        (kind : Kind) (i : ℕ) → has (marked_of marks kind) i ≡ to_find change rows.now kind i) }
{
    let bottom = marked(alloc, rows, new, Kind::Bottom, removed, added, foreign)?;
    let top = marked(alloc, rows, new, Kind::Top, removed, added, foreign)?;
    let star = marked(alloc, rows, new, Kind::Star, removed, added, foreign)?;
    Ok(Marks { bottom, top, star })
}

// The slots to whose rows something that was added is foreign.
fn foreign_by_side<U: Universe>(
    alloc: Global,
    old: &U,
    rows: &Rows,
    new: &U,
    removed: &Row,
    added: &Row,
    tally: &mut Tally,
) -> Result<Foreign, Memory>
    requires slots { U.slot_count old.now ≡ U.slot_count new.now }
    requires symbols { U.symbol_count old.now ≡ U.symbol_count new.now }
    requires removed { length removed.now ≡ U.slot_count new.now }
    requires live { (k : ℕ) → IsTrue (has added.now k) → IsTrue (U.is_live new.now k) }
    requires rows { AreOver (U.slot_count new.now) rows.now }
    requires old { HaveLiveRows (U.is_live old.now) rows.now }
    ensures size { IfOk result (AreForeignOver (U.slot_count new.now)) }
    ensures foreign { IfOk result (AreForeign (change_of (theory_of (U.symbols_of old.now) (U.is_local old.now) (U.is_live old.now))
        (theory_of (U.symbols_of new.now) (U.is_local new.now) (U.is_live new.now)) removed.now added.now (U.slot_count old.now)) rows.now) }
    ensures counted { tally.old.tests ≤ tally.new.tests }
    ensures runs { tally.new.runs ≡ tally.old.runs }
{
    let touched = touch(alloc, old, new, removed, added)?;
    let bottom = foreign_slots(alloc, rows, new, Side::Bottom, &touched, tally)?;
    let top = foreign_slots(alloc, rows, new, Side::Top, &touched, tally)?;
    Ok(Foreign { bottom, top })
}

// For each kind the slots whose modules are to be found after the change.
pub(crate) fn marks_after<U: Universe>(
    alloc: Global,
    old: &U,
    rows: &Rows,
    new: &U,
    removed: &Row,
    added: &Row,
    tally: &mut Tally,
) -> Result<Marks, Memory>
    requires slots { U.slot_count old.now ≡ U.slot_count new.now }
    requires symbols { U.symbol_count old.now ≡ U.symbol_count new.now }
    requires removed { length removed.now ≡ U.slot_count new.now }
    requires added { length added.now ≡ U.slot_count new.now }
    requires genuine { AreGenuine (U.symbols_of old.now) (U.is_local old.now) (U.is_live old.now) (U.slot_count old.now) rows.now }
    requires change { IsChangeOfSlots (change_of (theory_of (U.symbols_of old.now) (U.is_local old.now) (U.is_live old.now))
        (theory_of (U.symbols_of new.now) (U.is_local new.now) (U.is_live new.now)) removed.now added.now (U.slot_count old.now)) }
    ensures size { IfOk result (λ marks. (kind : Kind) → length (marked_of marks kind) ≡ U.slot_count new.now) }
    ensures members { IfOk result (λ marks. (kind : Kind) (i : ℕ) → has (marked_of marks kind) i ≡
        to_find (change_of (theory_of (U.symbols_of old.now) (U.is_local old.now) (U.is_live old.now))
        (theory_of (U.symbols_of new.now) (U.is_local new.now) (U.is_live new.now)) removed.now added.now (U.slot_count old.now)) rows.now kind i) }
    ensures counted { tally.old.tests ≤ tally.new.tests }
    ensures runs { tally.new.runs ≡ tally.old.runs }
{
    let foreign = foreign_by_side(alloc, old, rows, new, removed, added, tally)?;
    marked_by_kind(alloc, rows, new, removed, added, &foreign)
}
