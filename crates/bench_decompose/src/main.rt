//! Finds the decomposition of a tree or a chain of classes, and prints what it has. The words are the hierarchy, the number
//! of axioms, and how far to go: `universe`; `rows`, for the genuine modules; `atoms`, for the whole decomposition; or
//! `copies`, for copies of the universe with an edit in each.
#![tactic(auto)]

ghost use Rattle.std.specs.Prelude.{◌≡◌};
ghost use Rattle.ad_base.specs.Limits.{AreWithinStandard};
ghost use Rattle.ad_flat.specs.Universes.{most_in, symbols_in};

use crate::parts::{copies, decomposed, runs};
use crate::words::{Part, Work, asked};
use ad_base::{Kind, Limits};
use ad_decompose::Decomposition;
use ad_flat::FlatUniverse;
use ad_signature::Symbols;
use bench_classes::put_classes;
use std::alloc::Global;
use std::hash::RandomState;
use std::thread::Threads;
use std::{env, io};

mod parts;
mod words;

// How many copies are made.
const COPIES: u32 = 1_000;

// Prints how many atoms there are of a kind, and how many covers between them.
fn print_kind(rt: &impl Print, found: &Decomposition, kind: Kind, name: &str) -> io::Result<()> {
    let atoms = found.atoms(kind).count();
    let covers = found.covers(kind).count();
    println!(rt; "{name} {atoms} atoms {covers} covers")
}

fn print_kinds(rt: &impl Print, found: &Decomposition) -> io::Result<()> {
    print_kind(rt, found, Kind::Bottom, "bottom")?;
    print_kind(rt, found, Kind::Top, "top")?;
    print_kind(rt, found, Kind::Star, "star")
}

// Goes so far with the axioms of a universe.
fn go(
    rt: &(impl Print + Threads + Sync),
    alloc: Global,
    universe: &FlatUniverse,
    symbols: &mut Symbols,
    limits: &Limits,
    part: Part,
) -> anyhow::Result<()>
    requires standard { AreWithinStandard limits.now }
    requires slots { most_in universe.now ≡ limits.now.axioms }
    requires symbols { symbols_in universe.now ≡ limits.now.entities }
    requires limit { symbols.old.limit ≡ limits.now.entities }
{
    match part {
        Part::Universe => println!(rt; "{} slots", universe.next())?,
        Part::Rows => println!(rt; "{} modules", runs(rt, alloc, universe, limits)?)?,
        Part::Atoms => print_kinds(rt, &decomposed(rt, alloc, universe, limits)?)?,
        Part::Copies => {
            copies(alloc, universe, symbols, limits, COPIES)?;
            println!(rt; "{COPIES} copies")?;
        }
    }
    Ok(())
}

// Makes the universe, and goes as far as is asked.
fn run(
    rt: &(impl Print + Threads + Sync),
    alloc: Global,
    keys: RandomState,
    work: Work,
) -> anyhow::Result<()> {
    let limits = Limits::standard();
    let mut symbols = Symbols::new(alloc, keys, limits.entities)?;
    let mut universe = FlatUniverse::empty(alloc, &limits)?;
    put_classes(
        alloc,
        &mut universe,
        &mut symbols,
        &limits,
        work.hierarchy,
        work.count,
    )?;
    go(rt, alloc, &universe, &mut symbols, &limits, work.part)
}

fn main(rt: HostRuntime) -> anyhow::Result<()> {
    let work = asked(env::args(&rt)?)?;
    run(&rt, rt.alloc(), RandomState::new(&rt)?, work)
}
