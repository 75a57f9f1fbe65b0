//! Ontologies as numbered axioms, and their modules by the queue and by alternation.
ghost use Rattle.std.specs.Prelude.{◌≡◌, ◌<◌, IfOk, length};
ghost use Rattle.ad_base.specs.Limits.{AreWithinStandard};
ghost use Rattle.ad_flat.specs.Universes.{most_in, symbols_in};

use ad_base::{Kind, Limits, Memory, Side};
use ad_bits::Row;
use ad_extract::Queue;
use ad_flat::{FlatUniverse, add};
use ad_signature::Symbols;
use ad_star::Starred;
use ad_theory::{Extractor, Half, Tally, Universe, empty_row};
use ad_tree::{Naming, Noted, Op, Seed};
use std::alloc::Global;
use std::hash::RandomState;
use std::test::Fail;

// How many axioms and entities there may be.
pub(crate) const MOST: u32 = 32;

fn limits() -> Limits
    ensures axioms { result.axioms ≡ MOST }
    ensures entities { result.entities ≡ MOST }
    ensures standard { AreWithinStandard result }
{
    let mut limits = Limits::standard();
    limits.axioms = MOST;
    limits.entities = MOST;
    limits
}

// Axioms with numbers, and numbers for their entities.
#[derive(Drop)]
pub(crate) struct Numbered {
    universe: FlatUniverse,
    symbols: Symbols,
    ghost slots: { most_in universe ≡ 32 },
    ghost entities: { symbols_in universe ≡ 32 },
    ghost limit: { symbols.limit ≡ 32 },
}

// The axioms of additions, each with its place in the list as its number.
pub(crate) fn with_numbers(
    alloc: Global,
    keys: RandomState,
    axioms: &[Op],
) -> Result<Numbered, Fail> {
    let mut numbered = Numbered::empty(alloc, keys)?;
    for axiom in axioms {
        numbered.insert(alloc, &axiom.noted)?;
    }
    Ok(numbered)
}

// The numbers of the entities of a seed that have one.
fn row_of(alloc: Global, symbols: &Symbols, seed: &Seed) -> Result<Row, Memory>
    ensures { IfOk result (λ row. length row ≡ MOST) }
{
    let mut row = empty_row(alloc, MOST)?;
    for entity in seed.entities() {
        if let Some(number) = symbols.number(entity.kind, &entity.name) {
            if number < MOST {
                row.set(number);
            }
        }
    }
    Ok(row)
}

// All slots.
fn all_slots(alloc: Global) -> Result<Row, Memory>
    ensures { IfOk result (λ row. length row ≡ MOST) }
{
    let mut row = empty_row(alloc, MOST)?;
    for slot in 0..MOST {
        row.set(slot);
    }
    Ok(row)
}

impl Numbered {
    // No axioms.
    pub(crate) fn empty(alloc: Global, keys: RandomState) -> Result<Numbered, Fail> {
        let symbols = Symbols::new(alloc, keys, MOST)?;
        let universe = FlatUniverse::empty(alloc, &limits())?;
        Ok(Numbered { universe, symbols })
    }

    // Gives an axiom the least free number, where there is one.
    pub(crate) fn insert(&mut self, alloc: Global, noted: &Noted) -> Result<u32, Fail> {
        if self.universe.next() >= MOST as usize {
            Err("many axioms")?;
        }
        Ok(add(alloc, &mut self.universe, &mut self.symbols, noted)?)
    }

    // Removes the axiom with this number, where there is one.
    pub(crate) fn remove(&mut self, slot: u32) {
        if slot < MOST && self.universe.live(slot) {
            self.universe.remove(slot);
        }
    }

    // Begins again without axioms. Entities keep their numbers.
    pub(crate) fn clear(&mut self, alloc: Global) -> Result<(), Memory> {
        self.universe = FlatUniverse::empty(alloc, &limits())?;
        Ok(())
    }

    // Whether this slot holds the same symbols in both, and this symbol stands in the same slots.
    fn is_alike_at(&self, other: &Numbered, i: u32) -> bool
        requires { i < MOST }
    {
        self.universe.live(i) == other.universe.live(i)
            && self.universe.signature(i) == other.universe.signature(i)
            && self.universe.occurs(i) == other.universe.occurs(i)
    }

    // Whether both hold the same symbols in the same slots, of which the same are global.
    pub(crate) fn is_alike(&self, other: &Numbered) -> bool {
        for i in 0..MOST {
            if !self.is_alike_at(other, i) {
                return false;
            }
        }
        self.universe.global(Side::Bottom) == other.universe.global(Side::Bottom)
            && self.universe.global(Side::Top) == other.universe.global(Side::Top)
    }

    // The slots of the module of a side, by the queue, and how many tests of locality it took.
    pub(crate) fn by_queue(
        &self,
        alloc: Global,
        side: Side,
        seed: &Seed,
    ) -> Result<(Row, u64), Memory>
        ensures { IfOk result (λ found. length found.0 ≡ MOST) }
    {
        let mut queue = Queue::new(alloc, &limits())?;
        let seed = row_of(alloc, &self.symbols, seed)?;
        let within = all_slots(alloc)?;
        let mut out = empty_row(alloc, MOST)?;
        let mut closure = empty_row(alloc, MOST)?;
        let mut tally = Tally::new();
        queue.module(
            &self.universe,
            side,
            &seed,
            &within,
            &mut out,
            &mut closure,
            &mut tally,
        );
        Ok((out, tally.tests()))
    }

    // The slots of the module of a kind: by the queue on one side, and by alternation on both.
    pub(crate) fn module(&self, alloc: Global, kind: Kind, seed: &Seed) -> Result<Row, Memory>
        ensures { IfOk result (λ found. length found ≡ MOST) }
    {
        match kind {
            Kind::Bottom => Ok(self.by_queue(alloc, Side::Bottom, seed)?.0),
            Kind::Top => Ok(self.by_queue(alloc, Side::Top, seed)?.0),
            Kind::Star => self.by_alternation(alloc, seed),
        }
    }

    // The slots of the star module, by alternation of the queue.
    fn by_alternation(&self, alloc: Global, seed: &Seed) -> Result<Row, Memory>
        ensures { IfOk result (λ found. length found ≡ MOST) }
    {
        let limits = limits();
        let mut starred = Starred::of(alloc, Queue::new(alloc, &limits)?, &limits)?;
        let seed = row_of(alloc, &self.symbols, seed)?;
        let mut out = empty_row(alloc, MOST)?;
        let mut closure = empty_row(alloc, MOST)?;
        let mut tally = Tally::new();
        starred.module(
            &self.universe,
            Kind::Star,
            &seed,
            &mut out,
            &mut closure,
            &mut tally,
        );
        Ok(out)
    }
}
