//! The symbols of what was added, and where they stand: only an axiom that is near to an added one, or whose module has
//! such an axiom, can need it.
ghost use Rattle.std.specs.Prelude.{◌≡◌, ◌<◌, ◌&&◌, not, ℕ, IsTrue, IfOk, length, slice_index_or, []};
ghost use Rattle.ad_bits.specs.Rows.{has};
ghost use Rattle.ad_theory.specs.Numbers.{among};
ghost use Rattle.ad_repair.specs.Changes.{theory_of, change_of};
ghost use Rattle.ad_repair.specs.Touches.{IsSized, IsTouched};

use crate::setting::set_each;
use ad_base::Memory;
use ad_bits::Row;
use ad_theory::{Universe, empty_row};
use std::alloc::Global;

// What was added: its slots and the symbols in their signatures. Each symbol has the slots that stay in whose
// signatures it stands, and near are all of these.
#[derive(Drop)]
pub(crate) struct Touched {
    pub(crate) added: Vec<u32>,
    pub(crate) symbols: Vec<u32>,
    pub(crate) holders: Vec<Row>,
    pub(crate) near: Row,
}

// The members of the row, in order.
fn members(alloc: Global, row: &Row) -> Result<Vec<u32>, Memory>
    ensures { IfOk result (λ list. (i : ℕ) → among list.items i ≡ has row.now i) }
{
    let mut list = Vec::new(alloc);
    for i in 0..row.size() {
        if row.has(i) {
            list.push(i)?;
        }
    }
    Ok(list)
}

// The symbols in the signatures of these slots.
fn symbols_of<U: Universe>(alloc: Global, universe: &U, slots: &[u32]) -> Result<Vec<u32>, Memory>
    requires { (k : ℕ) → IsTrue (among slots.now k) → IsTrue (U.is_live universe.now k) }
    ensures all { IfOk result (λ symbols. (k s : ℕ) → IsTrue (among slots.now k) →
        IsTrue (among (U.symbols_of universe.now k) s) → IsTrue (among symbols.items s)) }
    ensures below { IfOk result (λ symbols. (s : ℕ) → IsTrue (among symbols.items s) → s < U.symbol_count universe.now) }
{
    let mut row = empty_row(alloc, universe.symbols())?;
    for slot in slots {
        set_each(&mut row, universe.signature(*slot));
    }
    members(alloc, &row)
}

// The slots that stay in whose signatures the symbol stands.
fn holders_of<U: Universe>(
    alloc: Global,
    universe: &U,
    removed: &Row,
    symbol: u32,
) -> Result<Row, Memory>
    requires symbol { symbol < U.symbol_count universe.now }
    requires removed { length removed.now ≡ U.slot_count universe.now }
    ensures size { IfOk result (λ row. length row ≡ U.slot_count universe.now) }
    ensures members { IfOk result (λ row. (i : ℕ) → has row i ≡ (among (U.slots_of universe.now symbol) i && not (has removed.now i))) }
{
    let mut row = empty_row(alloc, universe.slots())?;
    set_each(&mut row, universe.occurs(symbol));
    row.minus_with(removed);
    Ok(row)
}

// The same for each of the symbols.
fn holders_of_each<U: Universe>(
    alloc: Global,
    universe: &U,
    removed: &Row,
    symbols: &[u32],
) -> Result<Vec<Row>, Memory>
    requires symbols { (s : ℕ) → IsTrue (among symbols.now s) → s < U.symbol_count universe.now }
    requires removed { length removed.now ≡ U.slot_count universe.now }
    ensures long { IfOk result (λ rows. length rows.items ≡ length symbols.now) }
    ensures sizes { IfOk result (λ rows. (t : ℕ) → t < length rows.items → length (slice_index_or rows.items t []) ≡ U.slot_count universe.now) }
    ensures members { IfOk result (λ rows. (t i : ℕ) → t < length rows.items → has (slice_index_or rows.items t []) i ≡
        (among (U.slots_of universe.now (slice_index_or symbols.now t 0)) i && not (has removed.now i))) }
{
    let mut rows = Vec::with_capacity(alloc, symbols.len())?;
    for symbol in symbols {
        let row = holders_of(alloc, universe, removed, *symbol)?;
        rows.push(row)?;
    }
    Ok(rows)
}

// The members of all these rows.
fn joined(alloc: Global, rows: &[Row], slots: u32) -> Result<Row, Memory>
    requires { (t : ℕ) → t < length rows.now → length (slice_index_or rows.now t []) ≡ slots }
    ensures size { IfOk result (λ row. length row ≡ slots) }
    ensures members { IfOk result (λ row. (t i : ℕ) → t < length rows.now → IsTrue (has (slice_index_or rows.now t []) i) → IsTrue (has row i)) }
{
    let mut all = empty_row(alloc, slots)?;
    for row in rows {
        all.union_with(row);
    }
    Ok(all)
}

// What was added, from the axioms before and after.
pub(crate) fn touch<U: Universe>(
    alloc: Global,
    old: &U,
    new: &U,
    removed: &Row,
    added: &Row,
) -> Result<Touched, Memory>
    requires slots { U.slot_count old.now ≡ U.slot_count new.now }
    requires symbols { U.symbol_count old.now ≡ U.symbol_count new.now }
    requires removed { length removed.now ≡ U.slot_count new.now }
    requires live { (k : ℕ) → IsTrue (has added.now k) → IsTrue (U.is_live new.now k) }
    ensures sized { IfOk result (IsSized (U.slot_count new.now) (U.symbol_count new.now)) }
    ensures touched { IfOk result (IsTouched (change_of (theory_of (U.symbols_of old.now) (U.is_local old.now) (U.is_live old.now))
        (theory_of (U.symbols_of new.now) (U.is_local new.now) (U.is_live new.now)) removed.now added.now (U.slot_count old.now))) }
{
    let added = members(alloc, added)?;
    let symbols = symbols_of(alloc, new, &added)?;
    let holders = holders_of_each(alloc, old, removed, &symbols)?;
    let near = joined(alloc, &holders, old.slots())?;
    Ok(Touched {
        added,
        symbols,
        holders,
        near,
    })
}
