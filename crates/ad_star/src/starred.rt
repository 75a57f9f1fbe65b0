ghost use Rattle.std.specs.Prelude.{◌≡◌, ◌≤◌, ◌<◌, ℕ, IfOk, IsTrue, length};
ghost use Rattle.ad_base.specs.declared.limits.Kind.TheVariants.{Star};
ghost use Rattle.ad_base.specs.declared.limits.Side.TheVariants.{Bottom, Top};
ghost use Rattle.ad_bits.specs.Rows.{has};
ghost use Rattle.ad_theory.specs.Alternation.{IsAboveStar};
ghost use Rattle.ad_theory.specs.Numbers.{logic_of, AreSizesOf, IsNumberedModule};
ghost use Rattle.ad_theory.specs.Tally.{IsRaisedBy};

use ad_base::{Kind, Limits, Memory, Side};
use ad_bits::Row;
use ad_theory::{Extractor, Half, Tally, Universe, empty_row};
use std::alloc::Global;

/// Finds the modules of every kind by a half.
#[derive(Drop)]
pub struct Starred<H: Half> {
    half: H,
    all: Row,
    found: Row,
    // every number is a member of `all`
    ghost whole: { (i : ℕ) → i < length all → IsTrue (has all i) },
    ghost all_size: { length all ≡ (H.made_for half).axioms },
    ghost found_size: { length found ≡ (H.made_for half).axioms },
}

// The row of this size with every number.
fn full_row(alloc: Global, size: u32) -> Result<Row, Memory>
    ensures whole { IfOk result (λ row. (i : ℕ) → i < length row → IsTrue (has row i)) }
    ensures size { IfOk result (λ row. length row ≡ size) }
{
    let mut row = empty_row(alloc, size)?;
    for i in 0..size {
        row.set(i);
    }
    Ok(row)
}

// Puts the star module of the live slots in `start` into `out`: of those the bottom module, the top module of it, and so
// on, until nothing changes. `found` is room.
fn alternate<U: Universe, H: Half>(
    half: &mut H,
    found: &mut Row,
    universe: &U,
    seed: &Row,
    start: &Row,
    out: &mut Row,
    closure: &mut Row,
    tally: &mut Tally,
)
    requires limits { AreSizesOf (H.made_for half.old) (U.slot_count universe.now) (U.symbol_count universe.now) }
    requires found { length found.old ≡ U.slot_count universe.now }
    requires seed { length seed.now ≡ U.symbol_count universe.now }
    requires start { length start.now ≡ U.slot_count universe.now }
    requires out { length out.old ≡ U.slot_count universe.now }
    requires closure { length closure.old ≡ U.symbol_count universe.now }
    ensures found { IsNumberedModule Star (U.symbols_of universe.now) (U.is_local universe.now) (has seed.now)
        (λ i. IsTrue (U.is_live universe.now i) × IsTrue (has start.now i)) (has out.new) (has closure.new) }
    ensures counted { tally.old.tests ≤ tally.new.tests }
    ensures runs { tally.new.runs ≡ tally.old.runs }
    ensures room { length found.new ≡ length found.old }
    ensures out { length out.new ≡ length out.old }
    ensures closure { length closure.new ≡ length closure.old }
    ensures limits { H.made_for half.new ≡ H.made_for half.old }
{
    half.module(universe, Side::Bottom, seed, start, found, closure, tally);
    'rounds: loop {
        half.module(universe, Side::Top, seed, found, out, closure, tally);
        if out.same(found) {
            return;
        }
        half.module(universe, Side::Bottom, seed, out, found, closure, tally);
        if found.same(out) {
            return;
        }
    }
}

impl<H: Half> Starred<H> {
    /// Takes the memory that the half doesn't have yet.
    pub fn of(alloc: Global, half: H, limits: &Limits) -> Result<Starred<H>, Memory>
        requires { H.made_for half ≡ limits.now }
        ensures { IfOk result (λ starred. ⟦<Starred<H> as Extractor>⟧.made_for starred ≡ limits.now) }
    {
        Ok(Starred {
            half,
            all: full_row(alloc, limits.axioms)?,
            found: empty_row(alloc, limits.axioms)?,
        })
    }

    /// Puts the star module for `seed` of all live slots into `out`, and the seed with the module's symbols into
    /// `closure`. It is looked for in `start`, which contains it.
    pub fn star_within<U: Universe>(
        &mut self,
        universe: &U,
        seed: &Row,
        start: &Row,
        out: &mut Row,
        closure: &mut Row,
        tally: &mut Tally,
    )
        requires limits { AreSizesOf (⟦<Starred<H> as Extractor>⟧.made_for self.old) (U.slot_count universe.now) (U.symbol_count universe.now) }
        requires seed { length seed.now ≡ U.symbol_count universe.now }
        requires start { length start.now ≡ U.slot_count universe.now }
        requires above { IsAboveStar (logic_of (U.symbols_of universe.now) (U.is_local universe.now Bottom))
            (logic_of (U.symbols_of universe.now) (U.is_local universe.now Top)) (has seed.now) (λ i. IsTrue (U.is_live universe.now i)) (has start.now) }
        requires out { length out.old ≡ U.slot_count universe.now }
        requires closure { length closure.old ≡ U.symbol_count universe.now }
        ensures found { IsNumberedModule Star (U.symbols_of universe.now) (U.is_local universe.now) (has seed.now)
            (λ i. IsTrue (U.is_live universe.now i)) (has out.new) (has closure.new) }
        ensures counted { tally.old.tests ≤ tally.new.tests }
        ensures runs { IsRaisedBy 1 tally.old.runs tally.new.runs }
        ensures out { length out.new ≡ length out.old }
        ensures closure { length closure.new ≡ length closure.old }
        ensures limits { ⟦<Starred<H> as Extractor>⟧.made_for self.new ≡ ⟦<Starred<H> as Extractor>⟧.made_for self.old }
    {
        tally.count_run();
        alternate(
            &mut self.half,
            &mut self.found,
            universe,
            seed,
            start,
            out,
            closure,
            tally,
        );
    }

    /// Puts the star module for `seed` of the live slots in `start` into `out`, and the seed with the module's symbols
    /// into `closure`.
    pub fn star_of_part<U: Universe>(
        &mut self,
        universe: &U,
        seed: &Row,
        start: &Row,
        out: &mut Row,
        closure: &mut Row,
        tally: &mut Tally,
    )
        requires limits { AreSizesOf (⟦<Starred<H> as Extractor>⟧.made_for self.old) (U.slot_count universe.now) (U.symbol_count universe.now) }
        requires seed { length seed.now ≡ U.symbol_count universe.now }
        requires start { length start.now ≡ U.slot_count universe.now }
        requires out { length out.old ≡ U.slot_count universe.now }
        requires closure { length closure.old ≡ U.symbol_count universe.now }
        ensures found { IsNumberedModule Star (U.symbols_of universe.now) (U.is_local universe.now) (has seed.now)
            (λ i. IsTrue (U.is_live universe.now i) × IsTrue (has start.now i)) (has out.new) (has closure.new) }
        ensures counted { tally.old.tests ≤ tally.new.tests }
        ensures runs { IsRaisedBy 1 tally.old.runs tally.new.runs }
        ensures out { length out.new ≡ length out.old }
        ensures closure { length closure.new ≡ length closure.old }
        ensures limits { ⟦<Starred<H> as Extractor>⟧.made_for self.new ≡ ⟦<Starred<H> as Extractor>⟧.made_for self.old }
    {
        tally.count_run();
        alternate(
            &mut self.half,
            &mut self.found,
            universe,
            seed,
            start,
            out,
            closure,
            tally,
        );
    }
}

impl<H: Half> Extractor for Starred<H> {
    ghost made_for = { λ starred. H.made_for starred.half };

    fn make(alloc: Global, limits: &Limits) -> Result<Starred<H>, Memory> {
        let half = H::make_half(alloc, limits)?;
        Starred::of(alloc, half, limits)
    }

    fn module<U: Universe>(
        &mut self,
        universe: &U,
        kind: Kind,
        seed: &Row,
        out: &mut Row,
        closure: &mut Row,
        tally: &mut Tally,
    ) {
        tally.count_run();
        match kind {
            Kind::Bottom => {
                self.half.module(universe, Side::Bottom, seed, &self.all, out, closure, tally);
            }
            Kind::Top => {
                self.half
                    .module(universe, Side::Top, seed, &self.all, out, closure, tally);
            }
            Kind::Star => {
                alternate(
                    &mut self.half,
                    &mut self.found,
                    universe,
                    seed,
                    &self.all,
                    out,
                    closure,
                    tally,
                );
            }
        }
    }
}
