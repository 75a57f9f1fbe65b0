ghost use Rattle.std.specs.Prelude.{◌≡◌, ◌≤◌, ◌<◌, length};
ghost use Rattle.ad_base.specs.Limits.{AreWithinStandard};
ghost use Rattle.ad_flat.specs.Universes.{most_in, symbols_in};

use ad_base::{Kind, Limits, Memory};
use ad_bits::Row;
use ad_extract::Queue;
use ad_flat::FlatUniverse;
use ad_star::Starred;
use ad_theory::{Extractor, Tally, Universe, empty_row};
use std::alloc::Global;

// Puts these symbols into the row, and no others.
fn fill(row: &mut Row, symbols: &[u32])
    ensures { length row.new ≡ length row.old }
{
    row.clear();
    for symbol in symbols {
        if *symbol < row.size() {
            row.set(*symbol);
        }
    }
}

// How many axioms the modules of this kind have in all, for the signatures of the first axioms.
pub(crate) fn sizes(
    alloc: Global,
    universe: &FlatUniverse,
    limits: &Limits,
    kind: Kind,
    count: u32,
) -> Result<u64, Memory>
    requires limits { AreWithinStandard limits.now }
    requires slots { most_in universe.now ≡ limits.now.axioms }
    requires symbols { symbols_in universe.now ≡ limits.now.entities }
    requires count { count ≤ limits.now.axioms }
{
    let mut starred = Starred::of(alloc, Queue::new(alloc, limits)?, limits)?;
    let mut seed = empty_row(alloc, limits.entities)?;
    let mut out = empty_row(alloc, limits.axioms)?;
    let mut closure = empty_row(alloc, limits.entities)?;
    let mut tally = Tally::new();
    let mut sum = 0u64;
    for slot in 0..count {
        fill(&mut seed, universe.signature(slot));
        starred.module(universe, kind, &seed, &mut out, &mut closure, &mut tally);
        sum = sum.saturating_add(u64::from(out.count()));
    }
    Ok(sum)
}
