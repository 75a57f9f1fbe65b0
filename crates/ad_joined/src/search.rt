ghost use Rattle.std.specs.Prelude.{◌≡◌, ◌≤◌, ◌<◌, ℕ, Bool, ◌⊎◌, IsTrue, IfOk, length, vec_capacity};
ghost use Rattle.ad_bits.specs.Rows.{has};
ghost use Rattle.ad_extract.specs.Waiting.{IsWaiting, settled};
ghost use Rattle.ad_joined.specs.Searched.{IsSearchedRow};
ghost use Rattle.ad_joined.specs.Wholes.{AreWholes, HasMoved};
ghost use Rattle.ad_theory.specs.Numbers.{among, logic_of};
ghost use Rattle.ad_theory.specs.Sweep.{IsGathered};

use crate::join::join;
use crate::look::look_at_each;
use crate::whole::Whole;
use ad_base::{Memory, Side};
use ad_bits::Row;
use ad_extract::reach_all;
use ad_theory::{Tally, Universe, empty_row};
use std::alloc::Global;

// What searches for modules, with the room that it needs: what it found last, and its stack.
#[derive(Drop)]
pub(crate) struct Search {
    // The axioms of the module that was found last.
    pub(crate) out: Row,
    // Their symbols, with the signature that was searched for.
    pub(crate) reached: Row,
    left: Row,
    pending: Vec<u32>,
    ghost room: { length reached ≤ vec_capacity pending },
    ghost same_size: { length left ≡ length reached },
}

// Looks at these axioms, and joins a module where one is met that was found before. `left` is room.
fn look_and_join<U: Universe>(
    universe: &U,
    side: Side,
    slots: &[u32],
    wholes: &[Option<Whole>],
    pending: &mut Vec<u32>,
    out: &mut Row,
    reached: &mut Row,
    left: &mut Row,
    tally: &mut Tally,
)
    requires live { (i : ℕ) → IsTrue (among slots.now i) → IsTrue (U.is_live universe.now i) }
    requires long { length wholes.now ≡ U.slot_count universe.now }
    requires wholes { AreWholes (logic_of (U.symbols_of universe.now) (U.is_local universe.now side)) (U.is_live universe.now)
        (U.slot_count universe.now) (U.symbol_count universe.now) wholes.now }
    requires out { length out.old ≡ U.slot_count universe.now }
    requires reached { length reached.old ≡ U.symbol_count universe.now }
    requires left { length left.old ≡ length reached.old }
    requires room { length reached.old ≤ vec_capacity pending.old }
    requires waiting { IsWaiting pending.old.items reached.old }
    requires rest { (i : ℕ) → IsTrue (U.is_live universe.now i) → IsTrue (among slots.now i) ⊎ (IsTrue (has out.old i)
        ⊎ IsTrue (U.is_local universe.now side (settled pending.old.items reached.old) i)) }
    ensures waiting { IsWaiting pending.new.items reached.new }
    ensures gathered { (seed : ℕ → Bool) →
        IsGathered (logic_of (U.symbols_of universe.now) (U.is_local universe.now side)) seed
        (λ i. IsTrue (U.is_live universe.now i)) (λ i. IsTrue (has out.old i)) (has reached.old) →
        IsGathered (logic_of (U.symbols_of universe.now) (U.is_local universe.now side)) seed
        (λ i. IsTrue (U.is_live universe.now i)) (λ i. IsTrue (has out.new i)) (has reached.new) }
    ensures rest { (i : ℕ) → IsTrue (U.is_live universe.now i) → IsTrue (has out.new i)
        ⊎ IsTrue (U.is_local universe.now side (settled pending.new.items reached.new) i) }
    ensures moved { HasMoved out.old pending.old.items out.new pending.new.items }
    ensures counted { tally.old.tests ≤ tally.new.tests }
    ensures runs { tally.new.runs ≡ tally.old.runs }
    ensures room { vec_capacity pending.new ≡ vec_capacity pending.old }
    ensures out { length out.new ≡ length out.old }
    ensures reached { length reached.new ≡ length reached.old }
    ensures left { length left.new ≡ length left.old }
{
    if let Some(whole) = look_at_each(universe, side, slots, wholes, pending, out, reached, tally) {
        join(whole, pending, out, reached, left);
    }
}

// Finds the module for the signature of an axiom.
fn run<U: Universe>(
    universe: &U,
    side: Side,
    slot: u32,
    wholes: &[Option<Whole>],
    pending: &mut Vec<u32>,
    out: &mut Row,
    reached: &mut Row,
    left: &mut Row,
    tally: &mut Tally,
)
    requires live { IsTrue (U.is_live universe.now slot) }
    requires long { length wholes.now ≡ U.slot_count universe.now }
    requires wholes { AreWholes (logic_of (U.symbols_of universe.now) (U.is_local universe.now side)) (U.is_live universe.now)
        (U.slot_count universe.now) (U.symbol_count universe.now) wholes.now }
    requires out { length out.old ≡ U.slot_count universe.now }
    requires reached { length reached.old ≡ U.symbol_count universe.now }
    requires left { length left.old ≡ length reached.old }
    requires room { length reached.old ≤ vec_capacity pending.old }
    ensures found { IsSearchedRow (logic_of (U.symbols_of universe.now) (U.is_local universe.now side)) (U.is_live universe.now)
        (U.slot_count universe.now) (U.symbol_count universe.now) slot out.new reached.new }
    ensures counted { tally.old.tests ≤ tally.new.tests }
    ensures runs { tally.new.runs ≡ tally.old.runs }
    ensures room { vec_capacity pending.new ≡ vec_capacity pending.old }
    ensures left { length left.new ≡ length left.old }
{
    out.clear();
    reached.clear();
    pending.clear();
    reach_all(pending, reached, universe.signature(slot));
    let global = universe.global(side);
    look_and_join(
        universe, side, global, wholes, pending, out, reached, left, tally,
    );
    'waiting: while let Some(symbol) = pending.pop() {
        let occurs = universe.occurs(symbol);
        look_and_join(
            universe, side, occurs, wholes, pending, out, reached, left, tally,
        );
    }
}

impl Search {
    // Takes all the memory that searching over so many slots and symbols needs.
    pub(crate) fn new(alloc: Global, slots: u32, symbols: u32) -> Result<Search, Memory>
        ensures out { IfOk result (λ search. length search.out ≡ slots) }
        ensures reached { IfOk result (λ search. length search.reached ≡ symbols) }
    {
        Ok(Search {
            out: empty_row(alloc, slots)?,
            reached: empty_row(alloc, symbols)?,
            left: empty_row(alloc, symbols)?,
            pending: Vec::with_capacity(alloc, symbols as usize)?,
        })
    }

    // Finds the module of a side for the signature of the slot's axiom. Those that were found before are joined whole
    // where the search meets their axioms.
    pub(crate) fn find<U: Universe>(
        &mut self,
        universe: &U,
        side: Side,
        slot: u32,
        wholes: &[Option<Whole>],
        tally: &mut Tally,
    )
        requires live { IsTrue (U.is_live universe.now slot) }
        requires long { length wholes.now ≡ U.slot_count universe.now }
        requires wholes { AreWholes (logic_of (U.symbols_of universe.now) (U.is_local universe.now side)) (U.is_live universe.now)
            (U.slot_count universe.now) (U.symbol_count universe.now) wholes.now }
        requires out { length self.old.out ≡ U.slot_count universe.now }
        requires reached { length self.old.reached ≡ U.symbol_count universe.now }
        ensures found { IsSearchedRow (logic_of (U.symbols_of universe.now) (U.is_local universe.now side)) (U.is_live universe.now)
            (U.slot_count universe.now) (U.symbol_count universe.now) slot self.new.out self.new.reached }
        ensures counted { tally.old.tests ≤ tally.new.tests }
        ensures runs { tally.new.runs ≡ tally.old.runs }
    {
        run(
            universe,
            side,
            slot,
            wholes,
            &mut self.pending,
            &mut self.out,
            &mut self.reached,
            &mut self.left,
            tally,
        );
    }
}
