//! What an edition and the entry that made it tell.
ghost use Rattle.std.specs.Prelude.{◌≡◌, ◌+◌, ◌<◌, length, OnOk};

use ad_base::{Limits, Memory, Word};
use ad_edition::{Edition, Entry};
use ad_entity::{Entity, EntityKind};
use ad_theory::Tally;
use ad_tree::{Axiom, Batch, Class, Many, Noted, Op, Sign};
use std::alloc::Global;
use std::hash::RandomState;
use std::process::Abort;
use std::test::Fail;
use std::thread::Threads;

fn class(alloc: Global, name: &str) -> Result<Class, Memory> {
    Ok(Class::Named(Word::of(alloc, name)?))
}

// That the first class is below the second.
fn below(alloc: Global, lower: &str, upper: &str) -> Result<Noted, Memory> {
    let lower = class(alloc, lower)?;
    let axiom = Axiom::SubClassOf(lower, class(alloc, upper)?);
    Ok(Noted {
        notes: Many::new(alloc),
        axiom,
    })
}

fn declaration(alloc: Global, name: &str) -> Result<Noted, Memory> {
    let axiom = Axiom::Declaration(Entity {
        kind: EntityKind::Class,
        name: Word::of(alloc, name)?,
    });
    Ok(Noted {
        notes: Many::new(alloc),
        axiom,
    })
}

fn put(batch: &mut Batch, sign: Sign, noted: Noted) -> Result<(), Memory>
    requires { length batch.old < 100 }
    ensures { OnOk result (length batch.new ≡ length batch.old + 1) }
{
    batch.push(Op { sign, noted })
}

// An addition alone.
pub(crate) fn addition(alloc: Global) -> Result<Batch, Memory> {
    let mut batch = Batch::new(alloc);
    put(&mut batch, Sign::Add, below(alloc, "u:A", "u:B")?)?;
    Ok(batch)
}

// A declaration and an axiom that is put in, taken out and put in again.
fn batch(alloc: Global) -> Result<Batch, Memory> {
    let mut batch = Batch::new(alloc);
    put(&mut batch, Sign::Add, below(alloc, "u:A", "u:B")?)?;
    put(&mut batch, Sign::Add, declaration(alloc, "u:A")?)?;
    put(&mut batch, Sign::Remove, below(alloc, "u:A", "u:B")?)?;
    put(&mut batch, Sign::Add, below(alloc, "u:A", "u:B")?)?;
    Ok(batch)
}

// The counts of the edition's axioms: all, logical and carried.
fn counts(edition: &Edition) -> [u32; 3] {
    [
        edition.len(),
        edition.axiom_count(),
        edition.carried_count(),
    ]
}

// The slots of the edition's first two axioms.
fn slots(edition: &Edition) -> [Option<u32>; 2] {
    if edition.len() < 2 {
        return [None; 2];
    }
    [edition.slot(0), edition.slot(1)]
}

// Whether the edition lists the declaration before the axiom.
fn lists_both(alloc: Global, edition: &Edition) -> Result<bool, Memory> {
    let axiom = below(alloc, "u:A", "u:B")?;
    let declaration = declaration(alloc, "u:A")?;
    Ok(edition.len() == 2 && *edition.noted(0) == declaration && *edition.axioms()[1] == axiom)
}

// The edition that the batch makes of an empty one.
fn make(
    rt: &(impl Threads + Sync),
    alloc: Global,
    none: &Edition,
    batch: &Batch,
) -> Result<(Entry, Edition), Memory> {
    let Ok(mut draft) = none.begin(alloc, batch, None) else {
        return Err(Memory);
    };
    let entry = draft.take_entry(alloc, 3, 7);
    match draft.fresh(rt, alloc, &mut Tally::new()) {
        Ok(edition) => Ok((entry, edition)),
        Err(Memory) => {
            drop(entry);
            Err(Memory)
        }
    }
}

fn tell(rt: &impl Abort, alloc: Global, entry: &Entry, edition: &Edition) -> Result<(), Fail> {
    assert!(rt; entry.ticket() == 3 && entry.sequence() == 7);
    assert!(rt; edition.number() == 1 && edition.bytes() == 62);
    assert!(rt; edition.limits().axioms == 1);
    assert!(rt; counts(edition) == [2, 1, 1]);
    assert!(rt; edition.entity_count() == 2 && slots(edition) == [None, Some(0)]);
    assert!(rt; lists_both(alloc, edition)?);
    Ok(())
}

// Makes an edition of an empty one, and looks at what it and its entry tell.
fn make_and_tell(
    rt: &(impl Abort + Threads + Sync),
    alloc: Global,
    none: &Edition,
) -> Result<(), Fail> {
    assert!(rt; none.is_empty() && none.bytes() == 12);
    let batch = batch(alloc)?;
    let (entry, edition) = make(rt, alloc, none, &batch)?;
    let told = tell(rt, alloc, &entry, &edition);
    drop(edition);
    told
}

#[test]
fn an_edition_and_its_entry(rt: HostRuntime) -> Result<(), Fail> {
    let keys = RandomState::new(&rt)?;
    let mut limits = Limits::standard();
    limits.axioms = 1;
    let none = Edition::empty(rt.alloc(), keys, limits)?;
    let told = make_and_tell(&rt, rt.alloc(), &none);
    drop(none);
    told
}
