//! Steps of a search for a module. `pending` is the stack of symbols that wait, `out` the axioms taken so far, and

ghost use Rattle.std.specs.Prelude.{◌≡◌, ◌≤◌, ◌+◌, ◌<◌, ℕ, ◌&&◌, not, Bool, true, ◌⊎◌, IsTrue, length, set, vec_capacity};
ghost use Rattle.ad_base.specs.declared.limits.Side.{Side};
ghost use Rattle.ad_bits.specs.Rows.{has};
ghost use Rattle.ad_theory.specs.Numbers.{among, logic_of};
ghost use Rattle.ad_theory.specs.Sweep.{HasAlso, IsGathered};
ghost use Rattle.ad_extract.specs.Waiting.{IsWaiting, settled};

use crate::waiting::reach_all;
use ad_base::Side;
use ad_bits::Row;
use ad_theory::{Tally, Universe};

/// Takes an axiom, whose symbols are reached then.
pub fn take<U: Universe>(
    universe: &U,
    slot: u32,
    pending: &mut Vec<u32>,
    out: &mut Row,
    reached: &mut Row,
)
    requires live { IsTrue (U.is_live universe.now slot) }
    requires out { length out.old ≡ U.slot_count universe.now }
    requires reached { length reached.old ≡ U.symbol_count universe.now }
    requires room { length reached.old ≤ vec_capacity pending.old }
    requires waiting { IsWaiting pending.old.items reached.old }
    ensures waiting { IsWaiting pending.new.items reached.new }
    ensures also { HasAlso (has reached.old) (among (U.symbols_of universe.now slot)) (has reached.new) }
    ensures settled { (s : ℕ) → settled pending.new.items reached.new s ≡ settled pending.old.items reached.old s }
    ensures taken { out.new ≡ set out.old slot true }
    ensures room { vec_capacity pending.new ≡ vec_capacity pending.old }
    ensures out { length out.new ≡ length out.old }
    ensures reached { length reached.new ≡ length reached.old }
{
    out.set(slot);
    reach_all(pending, reached, universe.signature(slot));
}

// Whether an axiom is to be taken: it is in `within`, isn't taken yet, and isn't local for what was reached.
fn is_needed<U: Universe>(
    universe: &U,
    side: Side,
    slot: u32,
    within: &Row,
    out: &Row,
    reached: &Row,
    tally: &mut Tally,
) -> bool
    requires live { IsTrue (U.is_live universe.now slot) }
    requires within { length within.now ≡ U.slot_count universe.now }
    requires out { length out.now ≡ U.slot_count universe.now }
    requires reached { length reached.now ≡ U.symbol_count universe.now }
    ensures needed { result ≡ (has within.now slot && (not (has out.now slot)
        && not (U.is_local universe.now side (has reached.now) slot))) }
    ensures tests { tally.new.tests ≤ tally.old.tests + 1 }
    ensures counted { tally.old.tests ≤ tally.new.tests }
    ensures runs { tally.new.runs ≡ tally.old.runs }
{
    within.has(slot) && !out.has(slot) && !universe.local(side, slot, reached, tally)
}

// Looks at an axiom: takes it where it is in `within` and not local for what was reached.
fn look_at<U: Universe>(
    universe: &U,
    side: Side,
    slot: u32,
    within: &Row,
    pending: &mut Vec<u32>,
    out: &mut Row,
    reached: &mut Row,
    tally: &mut Tally,
)
    requires live { IsTrue (U.is_live universe.now slot) }
    requires within { length within.now ≡ U.slot_count universe.now }
    requires out { length out.old ≡ U.slot_count universe.now }
    requires reached { length reached.old ≡ U.symbol_count universe.now }
    requires room { length reached.old ≤ vec_capacity pending.old }
    requires waiting { IsWaiting pending.old.items reached.old }
    ensures waiting { IsWaiting pending.new.items reached.new }
    ensures gathered { (seed : ℕ → Bool) →
        IsGathered (logic_of (U.symbols_of universe.now) (U.is_local universe.now side)) seed
        (λ i. IsTrue (U.is_live universe.now i) × IsTrue (has within.now i)) (λ i. IsTrue (has out.old i)) (has reached.old) →
        IsGathered (logic_of (U.symbols_of universe.now) (U.is_local universe.now side)) seed
        (λ i. IsTrue (U.is_live universe.now i) × IsTrue (has within.now i)) (λ i. IsTrue (has out.new i)) (has reached.new) }
    ensures kept { (i : ℕ) → IsTrue (has out.old i) → IsTrue (has out.new i) }
    ensures looked { IsTrue (has within.now slot) → IsTrue (has out.new slot)
        ⊎ IsTrue (U.is_local universe.now side (settled pending.old.items reached.old) slot) }
    ensures settled { (s : ℕ) → settled pending.new.items reached.new s ≡ settled pending.old.items reached.old s }
    ensures tests { tally.new.tests ≤ tally.old.tests + 1 }
    ensures counted { tally.old.tests ≤ tally.new.tests }
    ensures runs { tally.new.runs ≡ tally.old.runs }
    ensures room { vec_capacity pending.new ≡ vec_capacity pending.old }
    ensures out { length out.new ≡ length out.old }
    ensures reached { length reached.new ≡ length reached.old }
{
    if is_needed(universe, side, slot, within, out, reached, tally) {
        take(universe, slot, pending, out, reached);
    }
}

// Looks at each of these axioms.
pub(crate) fn look_at_all<U: Universe>(
    universe: &U,
    side: Side,
    slots: &[u32],
    within: &Row,
    pending: &mut Vec<u32>,
    out: &mut Row,
    reached: &mut Row,
    tally: &mut Tally,
)
    requires live { (i : ℕ) → IsTrue (among slots.now i) → IsTrue (U.is_live universe.now i) }
    requires within { length within.now ≡ U.slot_count universe.now }
    requires out { length out.old ≡ U.slot_count universe.now }
    requires reached { length reached.old ≡ U.symbol_count universe.now }
    requires room { length reached.old ≤ vec_capacity pending.old }
    requires waiting { IsWaiting pending.old.items reached.old }
    ensures waiting { IsWaiting pending.new.items reached.new }
    ensures gathered { (seed : ℕ → Bool) →
        IsGathered (logic_of (U.symbols_of universe.now) (U.is_local universe.now side)) seed
        (λ i. IsTrue (U.is_live universe.now i) × IsTrue (has within.now i)) (λ i. IsTrue (has out.old i)) (has reached.old) →
        IsGathered (logic_of (U.symbols_of universe.now) (U.is_local universe.now side)) seed
        (λ i. IsTrue (U.is_live universe.now i) × IsTrue (has within.now i)) (λ i. IsTrue (has out.new i)) (has reached.new) }
    ensures kept { (i : ℕ) → IsTrue (has out.old i) → IsTrue (has out.new i) }
    ensures looked { (i : ℕ) → IsTrue (among slots.now i) → IsTrue (has within.now i) → IsTrue (has out.new i)
        ⊎ IsTrue (U.is_local universe.now side (settled pending.old.items reached.old) i) }
    ensures settled { (s : ℕ) → settled pending.new.items reached.new s ≡ settled pending.old.items reached.old s }
    ensures tests { tally.new.tests ≤ tally.old.tests + length slots.now }
    ensures counted { tally.old.tests ≤ tally.new.tests }
    ensures runs { tally.new.runs ≡ tally.old.runs }
    ensures room { vec_capacity pending.new ≡ vec_capacity pending.old }
    ensures out { length out.new ≡ length out.old }
    ensures reached { length reached.new ≡ length reached.old }
{
    for slot in slots {
        look_at(universe, side, *slot, within, pending, out, reached, tally);
    }
}
