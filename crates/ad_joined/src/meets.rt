//! Whether a search within a star module meets one of those axioms for whose signatures it is the star module too. The
//! module is its own module then, for what was searched for.
ghost use Rattle.std.specs.Prelude.{◌≡◌, ◌≤◌, ℕ, Bool, IsTrue, length, vec_capacity};
ghost use Rattle.ad_bits.specs.Rows.{has};
ghost use Rattle.ad_extract.specs.Waiting.{IsWaiting, settled};
ghost use Rattle.ad_joined.specs.Known.{HasFixed, IsMet};
ghost use Rattle.ad_theory.specs.Module.{IsFixed};
ghost use Rattle.ad_theory.specs.Numbers.{among, logic_of};
ghost use Rattle.ad_theory.specs.Sweep.{IsGathered};

use crate::look::is_needed;
use ad_base::Side;
use ad_bits::Row;
use ad_extract::{begin, take};
use ad_theory::{Tally, Universe};

// Looks at an axiom. Where it is in the row and needed, it is met, if it is among `same`, and is taken otherwise.
fn look_at<U: Universe>(
    universe: &U,
    side: Side,
    slot: u32,
    row: &Row,
    same: &Row,
    pending: &mut Vec<u32>,
    out: &mut Row,
    reached: &mut Row,
    tally: &mut Tally,
) -> bool
    requires live { IsTrue (U.is_live universe.now slot) }
    requires row { length row.now ≡ U.slot_count universe.now }
    requires same { length same.now ≡ U.slot_count universe.now }
    requires out { length out.old ≡ U.slot_count universe.now }
    requires reached { length reached.old ≡ U.symbol_count universe.now }
    requires room { length reached.old ≤ vec_capacity pending.old }
    requires waiting { IsWaiting pending.old.items reached.old }
    ensures waiting { IsWaiting pending.new.items reached.new }
    ensures gathered { (seed : ℕ → Bool) →
        IsGathered (logic_of (U.symbols_of universe.now) (U.is_local universe.now side)) seed
        (λ i. IsTrue (has row.now i)) (λ i. IsTrue (has out.old i)) (has reached.old) →
        IsGathered (logic_of (U.symbols_of universe.now) (U.is_local universe.now side)) seed
        (λ i. IsTrue (has row.now i)) (λ i. IsTrue (has out.new i)) (has reached.new) }
    ensures met { IsTrue result → IsMet (U.is_local universe.now side) (has same.now) (has reached.new) }
    ensures settled { (s : ℕ) → settled pending.new.items reached.new s ≡ settled pending.old.items reached.old s }
    ensures counted { tally.old.tests ≤ tally.new.tests }
    ensures runs { tally.new.runs ≡ tally.old.runs }
    ensures room { vec_capacity pending.new ≡ vec_capacity pending.old }
    ensures out { length out.new ≡ length out.old }
    ensures reached { length reached.new ≡ length reached.old }
{
    if !row.has(slot) {
        return false;
    }
    if !is_needed(universe, side, slot, out, reached, tally) {
        return false;
    }
    if same.has(slot) {
        return true;
    }
    take(universe, slot, pending, out, reached);
    false
}

// Looks at each of these axioms, up to the first that is met.
fn look_for<U: Universe>(
    universe: &U,
    side: Side,
    slots: &[u32],
    row: &Row,
    same: &Row,
    pending: &mut Vec<u32>,
    out: &mut Row,
    reached: &mut Row,
    tally: &mut Tally,
) -> bool
    requires live { (i : ℕ) → IsTrue (among slots.now i) → IsTrue (U.is_live universe.now i) }
    requires row { length row.now ≡ U.slot_count universe.now }
    requires same { length same.now ≡ U.slot_count universe.now }
    requires out { length out.old ≡ U.slot_count universe.now }
    requires reached { length reached.old ≡ U.symbol_count universe.now }
    requires room { length reached.old ≤ vec_capacity pending.old }
    requires waiting { IsWaiting pending.old.items reached.old }
    ensures waiting { IsWaiting pending.new.items reached.new }
    ensures gathered { (seed : ℕ → Bool) →
        IsGathered (logic_of (U.symbols_of universe.now) (U.is_local universe.now side)) seed
        (λ i. IsTrue (has row.now i)) (λ i. IsTrue (has out.old i)) (has reached.old) →
        IsGathered (logic_of (U.symbols_of universe.now) (U.is_local universe.now side)) seed
        (λ i. IsTrue (has row.now i)) (λ i. IsTrue (has out.new i)) (has reached.new) }
    ensures met { IsTrue result → IsMet (U.is_local universe.now side) (has same.now) (has reached.new) }
    ensures settled { (s : ℕ) → settled pending.new.items reached.new s ≡ settled pending.old.items reached.old s }
    ensures counted { tally.old.tests ≤ tally.new.tests }
    ensures runs { tally.new.runs ≡ tally.old.runs }
    ensures room { vec_capacity pending.new ≡ vec_capacity pending.old }
    ensures out { length out.new ≡ length out.old }
    ensures reached { length reached.new ≡ length reached.old }
{
    for slot in slots {
        if look_at(
            universe, side, *slot, row, same, pending, out, reached, tally,
        ) {
            return true;
        }
    }
    false
}

// Whether the search meets one of them. `pending`, `out` and `reached` are room.
pub(crate) fn meets<U: Universe>(
    universe: &U,
    side: Side,
    seed: &Row,
    row: &Row,
    same: &Row,
    pending: &mut Vec<u32>,
    out: &mut Row,
    reached: &mut Row,
    tally: &mut Tally,
) -> bool
    requires seed { length seed.now ≡ U.symbol_count universe.now }
    requires row { length row.now ≡ U.slot_count universe.now }
    requires same { length same.now ≡ U.slot_count universe.now }
    requires fixed { HasFixed (logic_of (U.symbols_of universe.now) (U.is_local universe.now side)) (has row.now) (has same.now) }
    requires out { length out.old ≡ U.slot_count universe.now }
    requires reached { length reached.old ≡ U.symbol_count universe.now }
    requires room { length reached.old ≤ vec_capacity pending.old }
    ensures fixed { IsTrue result → IsFixed (logic_of (U.symbols_of universe.now) (U.is_local universe.now side)) (has seed.now) (has row.now) }
    ensures some { IsTrue result → (i : ℕ) × IsTrue (has same.now i) }
    ensures counted { tally.old.tests ≤ tally.new.tests }
    ensures runs { tally.new.runs ≡ tally.old.runs }
    ensures room { vec_capacity pending.new ≡ vec_capacity pending.old }
    ensures out { length out.new ≡ length out.old }
    ensures reached { length reached.new ≡ length reached.old }
{
    out.clear();
    begin(pending, reached, seed);
    let global = universe.global(side);
    if look_for(
        universe, side, global, row, same, pending, out, reached, tally,
    ) {
        return true;
    }
    'waiting: while let Some(symbol) = pending.pop() {
        let occurs = universe.occurs(symbol);
        if look_for(
            universe, side, occurs, row, same, pending, out, reached, tally,
        ) {
            return true;
        }
    }
    false
}
