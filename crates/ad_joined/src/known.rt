ghost use Rattle.std.specs.Prelude.{◌≡◌, ◌≤◌, ◌<◌, ℕ, ◌&&◌, ◌||◌, not, Bool, List, IsTrue, IfOk, OnOk, length, vec_capacity};
ghost use Rattle.std.specs.Arc.{arc_value};
ghost use Rattle.ad_base.specs.declared.limits.Kind.TheVariants.{Star};
ghost use Rattle.ad_base.specs.declared.limits.Side.{Side};
ghost use Rattle.ad_base.specs.declared.limits.Side.TheVariants.{Bottom, Top};
ghost use Rattle.ad_bits.specs.Rows.{has};
ghost use Rattle.ad_joined.specs.Known.{IsKnown, IsPart};
ghost use Rattle.ad_theory.specs.Module.{IsStar};
ghost use Rattle.ad_theory.specs.Numbers.{among, logic_of, IsNumberedModule};

use crate::meets::meets;
use ad_base::{Memory, Side};
use ad_bits::Row;
use ad_theory::{Tally, Universe, empty_row};
use std::alloc::Global;
use std::sync::Arc;

// A star module that was found before, for the signature of one of its axioms.
#[derive(Drop)]
pub(crate) struct Known {
    pub(crate) row: Arc<Row>,
    // The symbols of its axioms.
    closure: Row,
    // Those of its axioms of whose signatures it was found to be the star module.
    same: Row,
}

// Whether a module is to be known in the place of another: it is far larger, or much of the other one and no more. So
// what is known comes to be what many modules contain.
fn is_better(row: &Row, other: &Row) -> bool
    requires { length row.now ≡ length other.now }
{
    row.count() / 2 > other.count() || (row.count() > other.count() / 2 && row.is_subset(other))
}

impl Known {
    // No module, over so many slots and symbols.
    pub(crate) fn nothing(alloc: Global, slots: u32, symbols: u32) -> Result<Known, Memory>
        ensures { IfOk result (λ known. (symbols_of : ℕ → List ℕ) (local : Side → (ℕ → Bool) → ℕ → Bool) (live : ℕ → Bool) →
            IsKnown symbols_of local live slots symbols (arc_value known.row) known.closure known.same) }
    {
        let row = empty_row(alloc, slots)?;
        Ok(Known {
            row: Arc::new(alloc, row)?,
            closure: empty_row(alloc, symbols)?,
            same: empty_row(alloc, slots)?,
        })
    }

    // The module is that of this slot's signature too.
    pub(crate) fn add(&mut self, slot: u32)
        requires row { slot < length (arc_value self.old.row) }
        requires same { slot < length self.old.same }
        ensures known { (symbols_of : ℕ → List ℕ) (local : Side → (ℕ → Bool) → ℕ → Bool) (live : ℕ → Bool) (slots symbols : ℕ) →
            IsStar (logic_of symbols_of (local Bottom)) (logic_of symbols_of (local Top)) (among (symbols_of slot)) (λ i. IsTrue (live i)) (has (arc_value self.old.row)) →
            IsKnown symbols_of local live slots symbols (arc_value self.old.row) self.old.closure self.old.same →
            IsKnown symbols_of local live slots symbols (arc_value self.new.row) self.new.closure self.new.same }
        ensures row { self.new.row ≡ self.old.row }
    {
        if self.row.has(slot) {
            self.same.set(slot);
        }
    }

    // Knows this module of the slot's signature, where it is better.
    pub(crate) fn learn(&mut self, slot: u32, row: &Arc<Row>, closure: &Row) -> Result<(), Memory>
        requires slot { slot < length (arc_value row.now) }
        requires row { length (arc_value self.old.row) ≡ length (arc_value row.now) }
        requires same { length self.old.same ≡ length (arc_value row.now) }
        requires closure { length self.old.closure ≡ length closure.now }
        ensures { OnOk result ((symbols_of : ℕ → List ℕ) (local : Side → (ℕ → Bool) → ℕ → Bool) (live : ℕ → Bool) (slots symbols : ℕ) →
            IsNumberedModule Star symbols_of local (among (symbols_of slot)) (λ i. IsTrue (live i)) (has (arc_value row.now)) (has closure.now) →
            IsKnown symbols_of local live slots symbols (arc_value self.old.row) self.old.closure self.old.same →
            IsKnown symbols_of local live slots symbols (arc_value self.new.row) self.new.closure self.new.same) }
    {
        if !row.has(slot) {
            return Ok(());
        }
        if !is_better(row, &self.row) {
            return Ok(());
        }
        let copy = Arc::try_clone(row)?;
        self.row = copy;
        self.closure.copy_from(closure);
        self.same.clear();
        self.same.set(slot);
        Ok(())
    }

    // Whether the module is its own module for the seed too, on both sides. So it is a part of the seed's star module,
    // which is looked for in `start`. `pending`, `out` and `reached` are room.
    pub(crate) fn is_part<U: Universe>(
        &self,
        universe: &U,
        seed: &Row,
        start: &Row,
        pending: &mut Vec<u32>,
        out: &mut Row,
        reached: &mut Row,
        tally: &mut Tally,
    ) -> bool
        requires known { IsKnown (U.symbols_of universe.now) (U.is_local universe.now) (U.is_live universe.now)
            (U.slot_count universe.now) (U.symbol_count universe.now) (arc_value self.now.row) self.now.closure self.now.same }
        requires seed { length seed.now ≡ U.symbol_count universe.now }
        requires start { length start.now ≡ U.slot_count universe.now }
        requires out { length out.old ≡ U.slot_count universe.now }
        requires reached { length reached.old ≡ U.symbol_count universe.now }
        requires room { length reached.old ≤ vec_capacity pending.old }
        ensures part { IsTrue result → IsPart (U.symbols_of universe.now) (U.is_local universe.now) (U.is_live universe.now)
            (has seed.now) (arc_value self.now.row) }
        ensures counted { tally.old.tests ≤ tally.new.tests }
        ensures runs { tally.new.runs ≡ tally.old.runs }
        ensures room { vec_capacity pending.new ≡ vec_capacity pending.old }
        ensures out { length out.new ≡ length out.old }
        ensures reached { length reached.new ≡ length reached.old }
    {
        if !self.same.meets(start) {
            return false;
        }
        if !self.row.is_subset(start) {
            return false;
        }
        if !meets(
            universe,
            Side::Bottom,
            seed,
            &self.row,
            &self.same,
            pending,
            out,
            reached,
            tally,
        ) {
            return false;
        }
        meets(
            universe,
            Side::Top,
            seed,
            &self.row,
            &self.same,
            pending,
            out,
            reached,
            tally,
        )
    }

    // Whether these are symbols of the module's axioms.
    pub(crate) fn has_all(&self, seed: &Row) -> bool
        requires { length seed.now ≡ length self.now.closure }
        ensures { IsTrue result → (s : ℕ) → IsTrue (has seed.now s) → IsTrue (has self.now.closure s) }
    {
        seed.is_subset(&self.closure)
    }

    // Takes the module's axioms out of `start`, and puts their symbols into `seed`.
    pub(crate) fn take_out(&self, seed: &mut Row, start: &mut Row)
        requires seed { length seed.old ≡ length self.now.closure }
        requires start { length start.old ≡ length (arc_value self.now.row) }
        ensures seed { (s : ℕ) → has seed.new s ≡ (has seed.old s || has self.now.closure s) }
        ensures start { (i : ℕ) → has start.new i ≡ (has start.old i && not (has (arc_value self.now.row) i)) }
        ensures seed_size { length seed.new ≡ length seed.old }
        ensures start_size { length start.new ≡ length start.old }
    {
        seed.union_with(&self.closure);
        start.minus_with(&self.row);
    }

    // Adds the module's axioms.
    pub(crate) fn add_to(&self, out: &mut Row)
        requires { length out.old ≡ length (arc_value self.now.row) }
        ensures members { (i : ℕ) → has out.new i ≡ (has out.old i || has (arc_value self.now.row) i) }
        ensures size { length out.new ≡ length out.old }
    {
        out.union_with(&self.row);
    }
}
