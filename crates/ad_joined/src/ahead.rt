ghost use Rattle.std.specs.Prelude.{◌≡◌, ◌≤◌, ◌<◌, ◌+◌, ◌^◌, ℕ, Bool, IsTrue, IfOk, OnOk, None, Some, length, replicate, set, slice_index_or};
ghost use Rattle.std.specs.Arc.{arc_value};
ghost use Rattle.std.specs.Option.{option_map};
ghost use Rattle.ad_joined.specs.Ahead.{IsAhead};
ghost use Rattle.ad_joined.specs.Searched.{IsSearchedRow, IsSideRow};
ghost use Rattle.ad_joined.specs.Wholes.{AreWholes};
ghost use Rattle.ad_tables.specs.Rows.{rows_in};
ghost use Rattle.ad_theory.specs.Module.{Logic};
ghost use Rattle.ad_theory.specs.Numbers.{logic_of};

use crate::search::Search;
use crate::whole::{Whole, copied};
use ad_base::{Memory, Side};
use ad_bits::Row;
use ad_theory::{Tally, Universe};
use std::alloc::Global;
use std::sync::Arc;

// A module with fewer axioms costs less to search than to join.
const LARGE: u32 = 32;

// What was found so far for some slots: the rows of some of them, by their places, and the larger ones by slots, to be
// joined.
#[derive(Drop)]
pub(crate) struct Ahead {
    pub(crate) search: Search,
    pub(crate) wholes: Vec<Option<Whole>>,
    pub(crate) rows: Vec<Option<Arc<Row>>>,
}

// So many places with nothing.
fn nothing<T: Drop>(alloc: Global, count: usize) -> Result<Vec<Option<T>>, Memory>
    requires { count < 2 ^ 32 }
    ensures { IfOk result (λ places. places.items ≡ replicate count None) }
{
    let mut places = Vec::with_capacity(alloc, count)?;
    for _ in 0..count {
        places.push(None)?;
    }
    Ok(places)
}

// Gives the slot this module.
fn put_whole(wholes: &mut Vec<Option<Whole>>, slot: u32, whole: Whole)
    requires { slot < length wholes.old.items }
    ensures { wholes.new.items ≡ set wholes.old.items slot (Some whole) }
{
    wholes[slot as usize] = Some(whole);
}

// Gives the place this row.
fn put_row(rows: &mut Vec<Option<Arc<Row>>>, at: usize, row: Arc<Row>)
    requires { at < length rows.old.items }
    ensures rows { rows_in rows.new.items ≡ set (rows_in rows.old.items) at (Some (arc_value row)) }
    ensures long { length rows.new.items ≡ length rows.old.items }
{
    rows[at] = Some(row);
}

// The row at a place, shared, where there is one.
fn share(rows: &[Option<Arc<Row>>], at: usize) -> Result<Option<Arc<Row>>, Memory>
    requires { at < length rows.now }
    ensures { IfOk result (λ row. option_map (λ row. arc_value row) row ≡ slice_index_or (rows_in rows.now) at None) }
{
    match &rows[at] {
        Some(row) => Ok(Some(Arc::try_clone(row)?)),
        None => Ok(None),
    }
}

// Keeps what the search has found for the slot, where that is large.
fn keep(
    alloc: Global,
    slot: u32,
    search: &Search,
    wholes: &mut Vec<Option<Whole>>,
) -> Result<(), Memory>
    requires { slot < length wholes.old.items }
    ensures wholes { OnOk result ((L : Logic ℕ ℕ) (live : ℕ → Bool) (slots symbols : ℕ) →
        IsSearchedRow L live slots symbols slot search.now.out search.now.reached →
        AreWholes L live slots symbols wholes.old.items → AreWholes L live slots symbols wholes.new.items) }
    ensures long { OnOk result (length wholes.new.items ≡ length wholes.old.items) }
{
    if search.out.count() >= LARGE {
        let whole = Whole::of(alloc, &search.out, &search.reached)?;
        put_whole(wholes, slot, whole);
    }
    Ok(())
}

impl Ahead {
    // Takes the memory for finding modules for so many slots.
    pub(crate) fn new(
        alloc: Global,
        slots: u32,
        symbols: u32,
        count: usize,
    ) -> Result<Ahead, Memory>
        requires { count < 2 ^ 32 }
        ensures out { IfOk result (λ ahead. length ahead.search.out ≡ slots) }
        ensures reached { IfOk result (λ ahead. length ahead.search.reached ≡ symbols) }
        ensures wholes { IfOk result (λ ahead. ahead.wholes.items ≡ replicate slots None) }
        ensures rows { IfOk result (λ ahead. ahead.rows.items ≡ replicate count None) }
    {
        Ok(Ahead {
            search: Search::new(alloc, slots, symbols)?,
            wholes: nothing(alloc, slots as usize)?,
            rows: nothing(alloc, count)?,
        })
    }

    // Finds the row of a slot.
    fn find<U: Universe>(
        &mut self,
        alloc: Global,
        universe: &U,
        side: Side,
        slot: u32,
        tally: &mut Tally,
    ) -> Result<Arc<Row>, Memory>
        requires live { IsTrue (U.is_live universe.now slot) }
        requires out { length self.old.search.out ≡ U.slot_count universe.now }
        requires reached { length self.old.search.reached ≡ U.symbol_count universe.now }
        requires long { length self.old.wholes.items ≡ U.slot_count universe.now }
        requires wholes { AreWholes (logic_of (U.symbols_of universe.now) (U.is_local universe.now side)) (U.is_live universe.now)
            (U.slot_count universe.now) (U.symbol_count universe.now) self.old.wholes.items }
        ensures found { IfOk result (λ row. IsSideRow (logic_of (U.symbols_of universe.now) (U.is_local universe.now side)) (U.is_live universe.now)
            (U.slot_count universe.now) slot (arc_value row)) }
        ensures out { OnOk result (length self.new.search.out ≡ U.slot_count universe.now) }
        ensures reached { OnOk result (length self.new.search.reached ≡ U.symbol_count universe.now) }
        ensures long { OnOk result (length self.new.wholes.items ≡ U.slot_count universe.now) }
        ensures wholes { OnOk result (AreWholes (logic_of (U.symbols_of universe.now) (U.is_local universe.now side)) (U.is_live universe.now)
            (U.slot_count universe.now) (U.symbol_count universe.now) self.new.wholes.items) }
        ensures rows { self.new.rows ≡ self.old.rows }
        ensures counted { tally.old.tests ≤ tally.new.tests }
        ensures runs { tally.new.runs ≡ tally.old.runs }
    {
        self.search.find(universe, side, slot, &self.wholes, tally);
        keep(alloc, slot, &self.search, &mut self.wholes)?;
        let row = copied(alloc, &self.search.out)?;
        Ok(Arc::new(alloc, row)?)
    }

    // Finds the row of the slot at a place, where it wasn't found yet.
    pub(crate) fn find_at<U: Universe>(
        &mut self,
        alloc: Global,
        universe: &U,
        side: Side,
        slots: &[u32],
        at: usize,
        tally: &mut Tally,
    ) -> Result<(), Memory>
        requires at { at < length slots.now }
        requires live { IsTrue (U.is_live universe.now (slice_index_or slots.now at 0)) }
        requires ahead { IsAhead (logic_of (U.symbols_of universe.now) (U.is_local universe.now side)) (U.is_live universe.now)
            (U.slot_count universe.now) (U.symbol_count universe.now) slots.now self.old }
        ensures ahead { OnOk result (IsAhead (logic_of (U.symbols_of universe.now) (U.is_local universe.now side)) (U.is_live universe.now)
            (U.slot_count universe.now) (U.symbol_count universe.now) slots.now self.new) }
        ensures counted { tally.old.tests ≤ tally.new.tests }
        ensures runs { tally.new.runs ≡ tally.old.runs }
    {
        if self.rows[at].is_some() {
            return Ok(());
        }
        let row = self.find(alloc, universe, side, slots[at], tally)?;
        put_row(&mut self.rows, at, row);
        Ok(())
    }

    // The row of the slot at a place. It is found where it wasn't yet.
    pub(crate) fn row_at<U: Universe>(
        &mut self,
        alloc: Global,
        universe: &U,
        side: Side,
        slots: &[u32],
        at: usize,
        tally: &mut Tally,
    ) -> Result<Arc<Row>, Memory>
        requires at { at < length slots.now }
        requires live { IsTrue (U.is_live universe.now (slice_index_or slots.now at 0)) }
        requires ahead { IsAhead (logic_of (U.symbols_of universe.now) (U.is_local universe.now side)) (U.is_live universe.now)
            (U.slot_count universe.now) (U.symbol_count universe.now) slots.now self.old }
        ensures found { IfOk result (λ row. IsSideRow (logic_of (U.symbols_of universe.now) (U.is_local universe.now side)) (U.is_live universe.now)
            (U.slot_count universe.now) (slice_index_or slots.now at 0) (arc_value row)) }
        ensures ahead { OnOk result (IsAhead (logic_of (U.symbols_of universe.now) (U.is_local universe.now side)) (U.is_live universe.now)
            (U.slot_count universe.now) (U.symbol_count universe.now) slots.now self.new) }
        ensures counted { tally.old.tests ≤ tally.new.tests }
        ensures runs { tally.new.runs ≡ tally.old.runs }
    {
        if let Some(row) = share(&self.rows, at)? {
            return Ok(row);
        }
        let row = self.find(alloc, universe, side, slots[at], tally)?;
        Ok(row)
    }
}
