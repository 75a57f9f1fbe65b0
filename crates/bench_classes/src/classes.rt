ghost use Rattle.std.specs.Prelude.{◌≡◌, ◌≤◌, ◌<◌};
ghost use Rattle.ad_flat.specs.Universes.{most_in, symbols_in};

use ad_base::{Limits, Memory, Word};
use ad_flat::{FlatUniverse, add};
use ad_signature::Symbols;
use ad_tree::{Axiom, Class, Many, Noted};
use anyhow::anyhow;
use std::alloc::Global;

/// How classes stand below each other.
#[derive(Clone, Copy)]
pub enum Hierarchy {
    /// Each class is below the one with half its number.
    Tree,
    /// Each class is below the one with the next number.
    Chain,
}

impl Hierarchy {
    // The class that is below another by the axiom with this number, and that other.
    fn pair(self, number: u32) -> (u32, u32)
        requires { number < 4294967295 }
    {
        match self {
            Hierarchy::Tree => (number + 1, (number + 1) / 2),
            Hierarchy::Chain => (number, number + 1),
        }
    }
}

// The class with this number in its name.
fn class(alloc: Global, number: u32) -> Result<Class, Memory> {
    let name = format!(in alloc; "u:C{number}")?;
    Ok(Class::Named(Word::of(alloc, name.as_str())?))
}

fn sub_class(alloc: Global, below: u32, above: u32) -> Result<Noted, Memory> {
    Ok(Noted {
        notes: Many::new(alloc),
        axiom: Axiom::SubClassOf(class(alloc, below)?, class(alloc, above)?),
    })
}

/// Puts the axiom that one class is below another into the least free slot, where there is one.
pub fn put_class(
    alloc: Global,
    universe: &mut FlatUniverse,
    symbols: &mut Symbols,
    limits: &Limits,
    below: u32,
    above: u32,
) -> anyhow::Result<()>
    requires slots { most_in universe.old ≡ limits.now.axioms }
    requires symbols { symbols_in universe.old ≡ limits.now.entities }
    requires limit { symbols.old.limit ≡ limits.now.entities }
    ensures slots { most_in universe.new ≡ limits.now.axioms }
    ensures symbols { symbols_in universe.new ≡ limits.now.entities }
    ensures limit { symbols.new.limit ≡ limits.now.entities }
{
    if universe.next() >= limits.axioms as usize {
        return Err(anyhow!("no free slot"));
    }
    let noted = sub_class(alloc, below, above)?;
    add(alloc, universe, symbols, &noted)?;
    Ok(())
}

/// Puts so many axioms into the least free slots, by which classes have this hierarchy.
pub fn put_classes(
    alloc: Global,
    universe: &mut FlatUniverse,
    symbols: &mut Symbols,
    limits: &Limits,
    hierarchy: Hierarchy,
    count: u32,
) -> anyhow::Result<()>
    requires slots { most_in universe.old ≡ limits.now.axioms }
    requires symbols { symbols_in universe.old ≡ limits.now.entities }
    requires limit { symbols.old.limit ≡ limits.now.entities }
    ensures slots { most_in universe.new ≡ limits.now.axioms }
    ensures symbols { symbols_in universe.new ≡ limits.now.entities }
    ensures limit { symbols.new.limit ≡ limits.now.entities }
{
    for number in 0..count {
        let (below, above) = hierarchy.pair(number);
        put_class(alloc, universe, symbols, limits, below, above)?;
    }
    Ok(())
}
