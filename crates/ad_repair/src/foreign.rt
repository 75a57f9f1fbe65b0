//! Whether something that was added is foreign to a module: not local for the axiom's symbols and those of what stays
//! of the module. Only its own symbols matter for that, so only where these stand is looked at.
ghost use Rattle.std.specs.Prelude.{◌≡◌, ◌↔◌, ◌≤◌, ◌<◌, ℕ, List, Bool, Some, false, IsTrue, IsFalse, IfOk, length};
ghost use Rattle.ad_base.specs.declared.limits.Kind.{Kind};
ghost use Rattle.ad_bits.specs.Rows.{has};
ghost use Rattle.ad_theory.specs.Numbers.{among};
ghost use Rattle.ad_tables.specs.Rows.{row_of};
ghost use Rattle.ad_decomposition.specs.Affected.{Theory, has_foreign};
ghost use Rattle.ad_decomposition.specs.Tables.{is_in_row_of};
ghost use Rattle.ad_repair.specs.Changes.{theory_of, change_of, stays, kind_of_side};
ghost use Rattle.ad_repair.specs.Touches.{IsSized, IsTouched, IsHeld, IsSeen, HaveLiveRows, AreOver};

use crate::setting::set_where;
use crate::touched::Touched;
use ad_base::{Kind, Memory, Side};
use ad_bits::Row;
use ad_tables::Rows;
use ad_theory::{Tally, Universe, empty_row};
use std::alloc::Global;

// Whether the slot or a member of the row is among the holders of a symbol.
fn is_held(holders: &Row, slot: u32, row: &Row) -> bool
    requires slot { slot < length holders.now }
    requires row { length row.now ≡ length holders.now }
    ensures { IsTrue result ↔ IsHeld holders.now slot row.now }
{
    holders.has(slot) || row.meets(holders)
}

// Makes those of the touched symbols the members of `seen` that the slot or a member of its row holds.
fn see(touched: &Touched, slot: u32, row: &Row, seen: &mut Row)
    requires slot { slot < length row.now }
    requires sized { IsSized (length row.now) (length seen.old) touched.now }
    ensures seen { IsSeen touched.now slot row.now seen.new (length touched.now.symbols.items) }
    ensures size { length seen.new ≡ length seen.old }
{
    seen.clear();
    for at in 0..touched.symbols.len() {
        if is_held(&touched.holders[at], slot, row) {
            seen.set(touched.symbols[at]);
        }
    }
}

// Whether one of these slots is not local for what was seen.
fn finds_foreign<U: Universe>(
    universe: &U,
    side: Side,
    slots: &[u32],
    seen: &Row,
    tally: &mut Tally,
) -> bool
    requires live { (k : ℕ) → IsTrue (among slots.now k) → IsTrue (U.is_live universe.now k) }
    requires seen { length seen.now ≡ U.symbol_count universe.now }
    ensures some { IsTrue result → (k : ℕ) × IsTrue (among slots.now k) × IsFalse (U.is_local universe.now side (has seen.now) k) }
    ensures none { IsFalse result → (k : ℕ) → IsTrue (among slots.now k) → IsTrue (U.is_local universe.now side (has seen.now) k) }
    ensures counted { tally.old.tests ≤ tally.new.tests }
    ensures runs { tally.new.runs ≡ tally.old.runs }
{
    for slot in slots {
        if !universe.local(side, *slot, seen, tally) {
            return true;
        }
    }
    false
}

// Whether each of these slots is local for nothing. One that isn't is in every module.
fn is_calm<U: Universe>(
    alloc: Global,
    universe: &U,
    side: Side,
    slots: &[u32],
    tally: &mut Tally,
) -> Result<bool, Memory>
    requires live { (k : ℕ) → IsTrue (among slots.now k) → IsTrue (U.is_live universe.now k) }
    ensures calm { IfOk result (λ calm. IsTrue calm → (k : ℕ) → IsTrue (among slots.now k) → IsTrue (U.is_local universe.now side (λ _. false) k)) }
    ensures other { IfOk result (λ calm. IsFalse calm → (k : ℕ) × IsTrue (among slots.now k) × IsFalse (U.is_local universe.now side (λ _. false) k)) }
    ensures counted { tally.old.tests ≤ tally.new.tests }
    ensures runs { tally.new.runs ≡ tally.old.runs }
{
    let nothing = empty_row(alloc, universe.symbols())?;
    Ok(!finds_foreign(universe, side, slots, &nothing, tally))
}

// Whether something that was added is foreign to what stays of the slot's row. `seen` is room.
fn is_foreign<U: Universe>(
    new: &U,
    side: Side,
    touched: &Touched,
    calm: bool,
    slot: u32,
    row: &Row,
    seen: &mut Row,
    tally: &mut Tally,
) -> bool
    requires slot { slot < U.slot_count new.now }
    requires row { length row.now ≡ U.slot_count new.now }
    requires seen { length seen.old ≡ U.symbol_count new.now }
    requires sized { IsSized (U.slot_count new.now) (U.symbol_count new.now) touched.now }
    requires live { (k : ℕ) → IsTrue (among touched.now.added.items k) → IsTrue (U.is_live new.now k) }
    requires calm { IsTrue calm → (k : ℕ) → IsTrue (among touched.now.added.items k) → IsTrue (U.is_local new.now side (λ _. false) k) }
    requires other { IsFalse calm → (k : ℕ) × IsTrue (among touched.now.added.items k) × IsFalse (U.is_local new.now side (λ _. false) k) }
    ensures answer { (before : Theory) (removed added : List Bool) (slots : ℕ) →
        let change = change_of before (theory_of (U.symbols_of new.now) (U.is_local new.now) (U.is_live new.now)) removed added slots in
        slots ≡ U.slot_count new.now → IsTouched change touched.now → IsTrue (stays change slot) →
        ((k : ℕ) → IsTrue (has row.now k) → IsTrue (before.live k)) →
        result ≡ has_foreign change side slot (has row.now) }
    ensures seen { length seen.new ≡ length seen.old }
    ensures counted { tally.old.tests ≤ tally.new.tests }
    ensures runs { tally.new.runs ≡ tally.old.runs }
{
    if !calm {
        return true;
    }
    if !is_held(&touched.near, slot, row) {
        return false;
    }
    see(touched, slot, row, seen);
    finds_foreign(new, side, &touched.added, seen, tally)
}

// The kind of module of the side.
fn kind_of(side: Side) -> Kind
    ensures { result ≡ kind_of_side side }
{
    match side {
        Side::Bottom => Kind::Bottom,
        Side::Top => Kind::Top,
    }
}

// The same for the row of this side that the slot has; nothing is foreign where it has none.
fn is_foreign_at<U: Universe>(
    rows: &Rows,
    new: &U,
    side: Side,
    touched: &Touched,
    calm: bool,
    slot: u32,
    seen: &mut Row,
    tally: &mut Tally,
) -> bool
    requires slot { slot < U.slot_count new.now }
    requires rows { AreOver (U.slot_count new.now) rows.now }
    requires seen { length seen.old ≡ U.symbol_count new.now }
    requires sized { IsSized (U.slot_count new.now) (U.symbol_count new.now) touched.now }
    requires live { (k : ℕ) → IsTrue (among touched.now.added.items k) → IsTrue (U.is_live new.now k) }
    requires calm { IsTrue calm → (k : ℕ) → IsTrue (among touched.now.added.items k) → IsTrue (U.is_local new.now side (λ _. false) k) }
    requires other { IsFalse calm → (k : ℕ) × IsTrue (among touched.now.added.items k) × IsFalse (U.is_local new.now side (λ _. false) k) }
    ensures answer { (before : Theory) (removed added : List Bool) (slots : ℕ) →
        let change = change_of before (theory_of (U.symbols_of new.now) (U.is_local new.now) (U.is_live new.now)) removed added slots in
        slots ≡ U.slot_count new.now → IsTouched change touched.now → HaveLiveRows before.live rows.now → IsTrue (stays change slot) →
        result ≡ has_foreign change side slot (is_in_row_of rows.now (kind_of_side side) slot) }
    ensures seen { length seen.new ≡ length seen.old }
    ensures counted { tally.old.tests ≤ tally.new.tests }
    ensures runs { tally.new.runs ≡ tally.old.runs }
{
    match rows.row(kind_of(side), slot) {
        Some(row) => is_foreign(new, side, touched, calm, slot, row, seen, tally),
        None => false,
    }
}

// The slots to whose rows of this side something that was added is foreign.
pub(crate) fn foreign_slots<U: Universe>(
    alloc: Global,
    rows: &Rows,
    new: &U,
    side: Side,
    touched: &Touched,
    tally: &mut Tally,
) -> Result<Row, Memory>
    requires rows { AreOver (U.slot_count new.now) rows.now }
    requires sized { IsSized (U.slot_count new.now) (U.symbol_count new.now) touched.now }
    requires live { (k : ℕ) → IsTrue (among touched.now.added.items k) → IsTrue (U.is_live new.now k) }
    ensures size { IfOk result (λ foreign. length foreign ≡ U.slot_count new.now) }
    ensures members { IfOk result (λ foreign. (before : Theory) (removed added : List Bool) (slots : ℕ) →
        let change = change_of before (theory_of (U.symbols_of new.now) (U.is_local new.now) (U.is_live new.now)) removed added slots in
        slots ≡ U.slot_count new.now → IsTouched change touched.now → HaveLiveRows before.live rows.now → (i : ℕ) → IsTrue (stays change i) →
        has foreign i ≡ has_foreign change side i (is_in_row_of rows.now (kind_of_side side) i)) }
    ensures counted { tally.old.tests ≤ tally.new.tests }
    ensures runs { tally.new.runs ≡ tally.old.runs }
{
    let mut foreign = empty_row(alloc, new.slots())?;
    if touched.added.is_empty() {
        return Ok(foreign);
    }
    let mut seen = empty_row(alloc, new.symbols())?;
    let calm = is_calm(alloc, new, side, &touched.added, tally)?;
    for slot in 0..new.slots() {
        let found = is_foreign_at(rows, new, side, touched, calm, slot, &mut seen, tally);
        set_where(&mut foreign, slot, found);
    }
    Ok(foreign)
}
