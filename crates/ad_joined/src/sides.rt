ghost use Rattle.std.specs.Prelude.{◌≡◌, ◌≤◌, ◌<◌, ◌+◌, ◌^◌, ℕ, IsTrue, IfOk, OnOk, length, map};
ghost use Rattle.std.specs.Arc.{arc_value};
ghost use Rattle.std.specs.List.{All, AllZip};
ghost use Rattle.ad_joined.specs.Ahead.{IsAhead};
ghost use Rattle.ad_joined.specs.Searched.{IsSideRow};
ghost use Rattle.ad_theory.specs.Numbers.{logic_of};

use crate::ahead::Ahead;
use ad_base::{Memory, Side};
use ad_bits::Row;
use ad_theory::{Tally, Universe};
use std::alloc::Global;
use std::sync::Arc;

// Finds the rows of the slots at each so many places.
fn find_each<U: Universe>(
    alloc: Global,
    universe: &U,
    side: Side,
    slots: &[u32],
    step: usize,
    ahead: &mut Ahead,
    tally: &mut Tally,
) -> Result<(), Memory>
    requires step { 0 < step }
    requires small { step ≤ 65536 }
    requires few { length slots.now ≤ 65536 }
    requires live { All (λ slot. IsTrue (U.is_live universe.now slot)) slots.now }
    requires ahead { IsAhead (logic_of (U.symbols_of universe.now) (U.is_local universe.now side)) (U.is_live universe.now)
        (U.slot_count universe.now) (U.symbol_count universe.now) slots.now ahead.old }
    ensures ahead { OnOk result (IsAhead (logic_of (U.symbols_of universe.now) (U.is_local universe.now side)) (U.is_live universe.now)
        (U.slot_count universe.now) (U.symbol_count universe.now) slots.now ahead.new) }
    ensures counted { tally.old.tests ≤ tally.new.tests }
    ensures runs { tally.new.runs ≡ tally.old.runs }
{
    let mut at = 0;
    'steps: while at < slots.len() {
        ahead.find_at(alloc, universe, side, slots, at, tally)?;
        at += step;
    }
    Ok(())
}

// Finds rows at fewer and fewer places apart. So wherever the axioms lie whose modules an axiom's module contains, before
// it or after, some of them that are near are found before it.
fn find_ahead<U: Universe>(
    alloc: Global,
    universe: &U,
    side: Side,
    slots: &[u32],
    ahead: &mut Ahead,
    tally: &mut Tally,
) -> Result<(), Memory>
    requires few { length slots.now ≤ 65536 }
    requires live { All (λ slot. IsTrue (U.is_live universe.now slot)) slots.now }
    requires ahead { IsAhead (logic_of (U.symbols_of universe.now) (U.is_local universe.now side)) (U.is_live universe.now)
        (U.slot_count universe.now) (U.symbol_count universe.now) slots.now ahead.old }
    ensures ahead { OnOk result (IsAhead (logic_of (U.symbols_of universe.now) (U.is_local universe.now side)) (U.is_live universe.now)
        (U.slot_count universe.now) (U.symbol_count universe.now) slots.now ahead.new) }
    ensures counted { tally.old.tests ≤ tally.new.tests }
    ensures runs { tally.new.runs ≡ tally.old.runs }
{
    find_each(alloc, universe, side, slots, 256, ahead, tally)?;
    find_each(alloc, universe, side, slots, 64, ahead, tally)?;
    find_each(alloc, universe, side, slots, 16, ahead, tally)?;
    find_each(alloc, universe, side, slots, 4, ahead, tally)
}

// The rows of all slots, from those that were found, and of the others found now.
fn rows_of<U: Universe>(
    alloc: Global,
    universe: &U,
    side: Side,
    slots: &[u32],
    ahead: &mut Ahead,
    tally: &mut Tally,
) -> Result<Vec<Arc<Row>>, Memory>
    requires live { All (λ slot. IsTrue (U.is_live universe.now slot)) slots.now }
    requires ahead { IsAhead (logic_of (U.symbols_of universe.now) (U.is_local universe.now side)) (U.is_live universe.now)
        (U.slot_count universe.now) (U.symbol_count universe.now) slots.now ahead.old }
    requires fits { tally.old.runs + length slots.now < 2 ^ 64 }
    ensures found { IfOk result (λ rows. AllZip (IsSideRow (logic_of (U.symbols_of universe.now) (U.is_local universe.now side))
        (U.is_live universe.now) (U.slot_count universe.now)) slots.now (map (λ row. arc_value row) rows.items)) }
    ensures counted { tally.old.tests ≤ tally.new.tests }
    ensures runs { OnOk result (tally.new.runs ≡ tally.old.runs + length slots.now) }
{
    let mut rows = Vec::with_capacity(alloc, slots.len())?;
    for at in 0..slots.len() {
        let row = ahead.row_at(alloc, universe, side, slots, at, tally)?;
        rows.push(row)?;
        tally.count_run();
    }
    Ok(rows)
}

/// The rows of the modules of a side for the signatures of these slots' axioms.
pub fn side_rows<U: Universe>(
    alloc: Global,
    universe: &U,
    side: Side,
    slots: &[u32],
    tally: &mut Tally,
) -> Result<Vec<Arc<Row>>, Memory>
    requires few { length slots.now ≤ 65536 }
    requires live { All (λ slot. IsTrue (U.is_live universe.now slot)) slots.now }
    requires fits { tally.old.runs + length slots.now < 2 ^ 64 }
    ensures found { IfOk result (λ rows. AllZip (IsSideRow (logic_of (U.symbols_of universe.now) (U.is_local universe.now side))
        (U.is_live universe.now) (U.slot_count universe.now)) slots.now (map (λ row. arc_value row) rows.items)) }
    ensures counted { tally.old.tests ≤ tally.new.tests }
    ensures runs { OnOk result (tally.new.runs ≡ tally.old.runs + length slots.now) }
{
    let mut ahead = Ahead::new(alloc, universe.slots(), universe.symbols(), slots.len())?;
    find_ahead(alloc, universe, side, slots, &mut ahead, tally)?;
    rows_of(alloc, universe, side, slots, &mut ahead, tally)
}
