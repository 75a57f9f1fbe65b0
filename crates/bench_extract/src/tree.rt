ghost use Rattle.std.specs.Prelude.{◌≡◌, IfOk};
ghost use Rattle.ad_base.specs.Limits.{AreWithinStandard};
ghost use Rattle.ad_flat.specs.Universes.{most_in, symbols_in};

use ad_base::Limits;
use ad_flat::FlatUniverse;
use ad_signature::Symbols;
use bench_classes::{Hierarchy, put_classes};
use std::alloc::Global;
use std::hash::RandomState;

// So many axioms, each of which puts a class below the one with half its number.
pub(crate) fn class_tree(
    alloc: Global,
    keys: RandomState,
    limits: &Limits,
    count: u32,
) -> anyhow::Result<FlatUniverse>
    requires { AreWithinStandard limits.now }
    ensures slots { IfOk result (λ universe. most_in universe ≡ limits.now.axioms) }
    ensures symbols { IfOk result (λ universe. symbols_in universe ≡ limits.now.entities) }
{
    let mut symbols = Symbols::new(alloc, keys, limits.entities)?;
    let mut universe = FlatUniverse::empty(alloc, limits)?;
    put_classes(
        alloc,
        &mut universe,
        &mut symbols,
        limits,
        Hierarchy::Tree,
        count,
    )?;
    Ok(universe)
}
