//! Looking at axioms: each that is needed is taken, unless a module for its signature was found before. `pending` is the
//! stack of symbols that wait, `out` the axioms taken so far, and `reached` the seed with their symbols.
ghost use Rattle.std.specs.Prelude.{◌≡◌, ◌≤◌, ◌<◌, ℕ, ◌&&◌, not, Bool, ◌⊎◌, IsTrue, IfSome, IfNone, length, vec_capacity};
ghost use Rattle.ad_bits.specs.Rows.{has};
ghost use Rattle.ad_extract.specs.Waiting.{IsWaiting, settled};
ghost use Rattle.ad_joined.specs.Wholes.{AreWholes, HasMoved, IsJoinable};
ghost use Rattle.ad_theory.specs.Numbers.{among, logic_of};
ghost use Rattle.ad_theory.specs.Sweep.{IsGathered};

use crate::whole::{Whole, whole_at};
use ad_base::Side;
use ad_bits::Row;
use ad_extract::take;
use ad_theory::{Tally, Universe};

// Whether an axiom is to be taken: it isn't taken yet, and isn't local for what was reached.
pub(crate) fn is_needed<U: Universe>(
    universe: &U,
    side: Side,
    slot: u32,
    out: &Row,
    reached: &Row,
    tally: &mut Tally,
) -> bool
    requires live { IsTrue (U.is_live universe.now slot) }
    requires out { length out.now ≡ U.slot_count universe.now }
    requires reached { length reached.now ≡ U.symbol_count universe.now }
    ensures needed { result ≡ (not (has out.now slot) && not (U.is_local universe.now side (has reached.now) slot)) }
    ensures counted { tally.old.tests ≤ tally.new.tests }
    ensures runs { tally.new.runs ≡ tally.old.runs }
{
    !out.has(slot) && !universe.local(side, slot, reached, tally)
}

// Looks at an axiom. Where it is needed, it is taken; or nothing changes, and the result is its module, found before.
fn look_at<'a, U: Universe>(
    universe: &U,
    side: Side,
    slot: u32,
    wholes: &'a [Option<Whole>],
    pending: &mut Vec<u32>,
    out: &mut Row,
    reached: &mut Row,
    tally: &mut Tally,
) -> Option<&'a Whole>
    requires live { IsTrue (U.is_live universe.now slot) }
    requires long { length wholes.now ≡ U.slot_count universe.now }
    requires wholes { AreWholes (logic_of (U.symbols_of universe.now) (U.is_local universe.now side)) (U.is_live universe.now)
        (U.slot_count universe.now) (U.symbol_count universe.now) wholes.now }
    requires out { length out.old ≡ U.slot_count universe.now }
    requires reached { length reached.old ≡ U.symbol_count universe.now }
    requires room { length reached.old ≤ vec_capacity pending.old }
    requires waiting { IsWaiting pending.old.items reached.old }
    ensures waiting { IsWaiting pending.new.items reached.new }
    ensures gathered { (seed : ℕ → Bool) →
        IsGathered (logic_of (U.symbols_of universe.now) (U.is_local universe.now side)) seed
        (λ i. IsTrue (U.is_live universe.now i)) (λ i. IsTrue (has out.old i)) (has reached.old) →
        IsGathered (logic_of (U.symbols_of universe.now) (U.is_local universe.now side)) seed
        (λ i. IsTrue (U.is_live universe.now i)) (λ i. IsTrue (has out.new i)) (has reached.new) }
    ensures kept { (i : ℕ) → IsTrue (has out.old i) → IsTrue (has out.new i) }
    ensures joinable { IfSome result (λ whole. IsJoinable (logic_of (U.symbols_of universe.now) (U.is_local universe.now side)) (U.is_live universe.now)
        (U.slot_count universe.now) (U.symbol_count universe.now) (has out.new) (has reached.new) whole.now) }
    ensures looked { IfNone result (IsTrue (has out.new slot)
        ⊎ IsTrue (U.is_local universe.now side (settled pending.old.items reached.old) slot)) }
    ensures settled { (s : ℕ) → settled pending.new.items reached.new s ≡ settled pending.old.items reached.old s }
    ensures moved { HasMoved out.old pending.old.items out.new pending.new.items }
    ensures counted { tally.old.tests ≤ tally.new.tests }
    ensures runs { tally.new.runs ≡ tally.old.runs }
    ensures room { vec_capacity pending.new ≡ vec_capacity pending.old }
    ensures out { length out.new ≡ length out.old }
    ensures reached { length reached.new ≡ length reached.old }
{
    if !is_needed(universe, side, slot, out, reached, tally) {
        return None;
    }
    if let Some(whole) = whole_at(wholes, slot) {
        return Some(whole);
    }
    take(universe, slot, pending, out, reached);
    None
}

// Looks at each of these axioms, up to the first that is needed and has a module that was found before.
pub(crate) fn look_at_each<'a, U: Universe>(
    universe: &U,
    side: Side,
    slots: &[u32],
    wholes: &'a [Option<Whole>],
    pending: &mut Vec<u32>,
    out: &mut Row,
    reached: &mut Row,
    tally: &mut Tally,
) -> Option<&'a Whole>
    requires live { (i : ℕ) → IsTrue (among slots.now i) → IsTrue (U.is_live universe.now i) }
    requires long { length wholes.now ≡ U.slot_count universe.now }
    requires wholes { AreWholes (logic_of (U.symbols_of universe.now) (U.is_local universe.now side)) (U.is_live universe.now)
        (U.slot_count universe.now) (U.symbol_count universe.now) wholes.now }
    requires out { length out.old ≡ U.slot_count universe.now }
    requires reached { length reached.old ≡ U.symbol_count universe.now }
    requires room { length reached.old ≤ vec_capacity pending.old }
    requires waiting { IsWaiting pending.old.items reached.old }
    ensures waiting { IsWaiting pending.new.items reached.new }
    ensures gathered { (seed : ℕ → Bool) →
        IsGathered (logic_of (U.symbols_of universe.now) (U.is_local universe.now side)) seed
        (λ i. IsTrue (U.is_live universe.now i)) (λ i. IsTrue (has out.old i)) (has reached.old) →
        IsGathered (logic_of (U.symbols_of universe.now) (U.is_local universe.now side)) seed
        (λ i. IsTrue (U.is_live universe.now i)) (λ i. IsTrue (has out.new i)) (has reached.new) }
    ensures kept { (i : ℕ) → IsTrue (has out.old i) → IsTrue (has out.new i) }
    ensures joinable { IfSome result (λ whole. IsJoinable (logic_of (U.symbols_of universe.now) (U.is_local universe.now side)) (U.is_live universe.now)
        (U.slot_count universe.now) (U.symbol_count universe.now) (has out.new) (has reached.new) whole.now) }
    ensures looked { IfNone result ((i : ℕ) → IsTrue (among slots.now i) → IsTrue (has out.new i)
        ⊎ IsTrue (U.is_local universe.now side (settled pending.old.items reached.old) i)) }
    ensures settled { (s : ℕ) → settled pending.new.items reached.new s ≡ settled pending.old.items reached.old s }
    ensures moved { HasMoved out.old pending.old.items out.new pending.new.items }
    ensures counted { tally.old.tests ≤ tally.new.tests }
    ensures runs { tally.new.runs ≡ tally.old.runs }
    ensures room { vec_capacity pending.new ≡ vec_capacity pending.old }
    ensures out { length out.new ≡ length out.old }
    ensures reached { length reached.new ≡ length reached.old }
{
    for slot in slots {
        if let Some(whole) = look_at(universe, side, *slot, wholes, pending, out, reached, tally) {
            return Some(whole);
        }
    }
    None
}
