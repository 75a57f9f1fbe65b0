ghost use Rattle.std.specs.Prelude.{◌≡◌, ◌<◌};
ghost use Rattle.ad_base.specs.Limits.{AreWithinStandard};
ghost use Rattle.ad_flat.specs.Universes.{most_in, symbols_in};

use ad_base::{Limits, Memory};
use ad_decompose::{Decomposition, live_slots};
use ad_flat::FlatUniverse;
use ad_genuine::scratch;
use ad_signature::Symbols;
use ad_theory::{Tally, Universe};
use bench_classes::put_class;
use std::alloc::Global;
use std::thread::Threads;

// Finds the genuine modules of all axioms. How many modules were extracted for them.
pub(crate) fn runs(
    rt: &(impl Threads + Sync),
    alloc: Global,
    universe: &FlatUniverse,
    limits: &Limits,
) -> Result<u64, Memory>
    requires standard { AreWithinStandard limits.now }
    requires slots { most_in universe.now ≡ limits.now.axioms }
    requires symbols { symbols_in universe.now ≡ limits.now.entities }
{
    let mut tally = Tally::new();
    let _rows = scratch::<FlatUniverse>(rt, alloc, universe, limits, &mut tally)?;
    Ok(tally.runs())
}

// The decomposition of the axioms in the order of their slots.
pub(crate) fn decomposed(
    rt: &(impl Threads + Sync),
    alloc: Global,
    universe: &FlatUniverse,
    limits: &Limits,
) -> Result<Decomposition, Memory>
    requires standard { AreWithinStandard limits.now }
    requires slots { most_in universe.now ≡ limits.now.axioms }
    requires symbols { symbols_in universe.now ≡ limits.now.entities }
{
    let order = live_slots(alloc, universe)?;
    let mut tally = Tally::new();
    Decomposition::of::<FlatUniverse>(rt, alloc, universe, limits, &order, &mut tally)
}

// Frees the slot, where it is live.
fn free(universe: &mut FlatUniverse, slot: u32)
    requires { slot < most_in universe.old }
{
    if universe.live(slot) {
        universe.remove(slot);
    }
}

// Copies the universe so many times, and edits each copy: one axiom more, and one less.
pub(crate) fn copies(
    alloc: Global,
    universe: &FlatUniverse,
    symbols: &mut Symbols,
    limits: &Limits,
    times: u32,
) -> anyhow::Result<()>
    requires slots { most_in universe.now ≡ limits.now.axioms }
    requires symbols { symbols_in universe.now ≡ limits.now.entities }
    requires limit { symbols.old.limit ≡ limits.now.entities }
{
    for i in 0..times.min(limits.axioms) {
        let mut copy = universe.copy(alloc)?;
        put_class(alloc, &mut copy, symbols, limits, i, 0)?;
        free(&mut copy, i);
    }
    Ok(())
}
