//! Ontologies as numbered axioms.
ghost use Rattle.std.specs.Prelude.{◌≡◌, IfOk};
ghost use Rattle.ad_base.specs.Limits.{AreWithinStandard};
ghost use Rattle.ad_flat.specs.Universes.{most_in, symbols_in};

use ad_base::Limits;
use ad_flat::{FlatUniverse, add};
use ad_signature::Symbols;
use ad_tree::{Noted, Op};
use std::alloc::Global;
use std::hash::RandomState;
use std::test::Fail;

// How many axioms and entities there may be.
pub(crate) const MOST: u32 = 8;

pub(crate) fn limits() -> Limits
    ensures axioms { result.axioms ≡ MOST }
    ensures entities { result.entities ≡ MOST }
    ensures standard { AreWithinStandard result }
{
    let mut limits = Limits::standard();
    limits.axioms = MOST;
    limits.entities = MOST;
    limits
}

// Puts an axiom into the least free slot, where there is one.
fn put(
    alloc: Global,
    universe: &mut FlatUniverse,
    symbols: &mut Symbols,
    noted: &Noted,
) -> Result<(), Fail>
    requires slots { most_in universe.old ≡ MOST }
    requires symbols { symbols_in universe.old ≡ MOST }
    requires limit { symbols.old.limit ≡ MOST }
    ensures slots { most_in universe.new ≡ MOST }
    ensures symbols { symbols_in universe.new ≡ MOST }
    ensures limit { symbols.new.limit ≡ MOST }
{
    if universe.next() >= MOST as usize {
        Err("many axioms")?;
    }
    add(alloc, universe, symbols, noted)?;
    Ok(())
}

// The axioms of additions, each with its place in the list as its number.
pub(crate) fn universe_of(
    alloc: Global,
    keys: RandomState,
    axioms: &[Op],
) -> Result<FlatUniverse, Fail>
    ensures slots { IfOk result (λ universe. most_in universe ≡ MOST) }
    ensures symbols { IfOk result (λ universe. symbols_in universe ≡ MOST) }
{
    let mut symbols = Symbols::new(alloc, keys, MOST)?;
    let mut universe = FlatUniverse::empty(alloc, &limits())?;
    for axiom in axioms {
        put(alloc, &mut universe, &mut symbols, &axiom.noted)?;
    }
    Ok(universe)
}
