//! Genuine modules of small ontologies.
ghost use Rattle.std.specs.Prelude.{◌≡◌};
ghost use Rattle.ad_flat.specs.Universes.{most_in, symbols_in};

use crate::universe::{MOST, limits, universe_of};
use ad_base::{Kind, Limits, Memory};
use ad_bits::Row;
use ad_flat::FlatUniverse;
use ad_genuine::scratch;
use ad_read::read_document;
use ad_tables::Rows;
use ad_theory::Tally;
use std::alloc::{AllocError, Global};
use std::hash::RandomState;
use std::test::Fail;
use std::thread::Threads;

// Ontologies, how many modules are extracted for their genuine modules, three for each signature, and the genuine
// modules on the bottom side, on the top side and of both: for each axiom in order, 1 for each axiom in its module
// and 0 for each other.
#[rattlefmt::skip]
static GENUINE: [(&str, u64, [&str; 3]); 7] = [
    ("Ontology()", 0, ["", "", ""]),
    // a tautology is in no module
    ("Ontology(SubClassOf(<u:A> owl:Thing))", 3, ["0 ", "0 ", "0 "]),
    // above the first stands the second, and below the second the first
    ("Ontology(SubClassOf(<u:A> <u:B>) SubClassOf(<u:B> <u:C>))", 6, ["11 01 ", "10 11 ", "10 01 "]),
    // on the bottom side the first two are in each module, since u:A isn't empty
    ("Ontology(SubClassOf(owl:Thing <u:A>) SubClassOf(<u:A> <u:B>) SubClassOf(<u:C> <u:D>))", 9, ["110 110 111 ", "100 110 001 ", "100 110 001 "]),
    // the first and the last have the same names, in another order
    ("Ontology(SubClassOf(<u:A> <u:B>) SubClassOf(<u:B> <u:C>) SubClassOf(<u:B> <u:A>))", 6, ["111 111 111 ", "101 111 101 ", "101 111 101 "]),
    ("Ontology(SubClassOf(<u:A> <u:A>) EquivalentClasses(<u:A>) SubClassOf(<u:B> owl:Thing))", 6, ["100 100 000 ", "100 100 000 ", "100 100 000 "]),
    // a tautology has a genuine module too: on the top side, where u:A and u:B are everything, the second is in it
    ("Ontology(SubClassOf(owl:Nothing owl:Thing) DisjointClasses(<u:A> <u:B>))", 6, ["00 01 ", "01 01 ", "00 01 "]),
];

// The genuine modules of all axioms, and how many modules were extracted for them.
fn found(
    rt: &(impl Threads + Sync),
    alloc: Global,
    universe: &FlatUniverse,
) -> Result<(Rows, u64), Memory>
    requires slots { most_in universe.now ≡ MOST }
    requires symbols { symbols_in universe.now ≡ MOST }
{
    let mut tally = Tally::new();
    let rows = scratch::<FlatUniverse>(rt, alloc, universe, &limits(), &mut tally)?;
    Ok((rows, tally.runs()))
}

// Writes for each slot below the count 1 where it is a member, and else 0.
fn write_members(line: &mut String, row: &Row, count: u32) -> Result<(), AllocError> {
    for slot in 0..count {
        let is_member = slot < row.size() && row.has(slot);
        line.push_str(if is_member { "1" } else { "0" })?;
    }
    line.push_str(" ")
}

// The genuine modules of one kind.
fn line_of(alloc: Global, rows: &Rows, kind: Kind, count: u32) -> Result<String, AllocError> {
    let mut line = String::new(alloc);
    for slot in 0..count {
        if let Some(row) = rows.row(kind, slot) {
            write_members(&mut line, row, count)?;
        }
    }
    Ok(line)
}

// Whether the genuine modules of each kind are these.
fn are(alloc: Global, rows: &Rows, count: u32, expected: &[&str; 3]) -> Result<bool, AllocError> {
    let bottom = line_of(alloc, rows, Kind::Bottom, count)?.as_str() == expected[0];
    let top = line_of(alloc, rows, Kind::Top, count)?.as_str() == expected[1];
    let star = line_of(alloc, rows, Kind::Star, count)?.as_str() == expected[2];
    Ok(bottom && top && star)
}

// Whether the ontology has these genuine modules, and so many modules were extracted for them.
fn holds(
    rt: &(impl Threads + Sync),
    alloc: Global,
    keys: RandomState,
    text: &str,
    runs: u64,
    expected: &[&str; 3],
) -> Result<bool, Fail> {
    if text.len() >= 1_000 {
        Err("a long text")?;
    }
    let document = read_document(alloc, text.as_bytes(), &Limits::standard())?;
    if document.ops().len() > MOST as usize {
        Err("many axioms")?;
    }
    let universe = universe_of(alloc, keys, document.ops())?;
    let (rows, extracted) = found(rt, alloc, &universe)?;
    let count = document.ops().len() as u32;
    Ok(are(alloc, &rows, count, expected)? && extracted == runs)
}

#[test]
fn genuine_modules(rt: HostRuntime) -> Result<(), Fail> {
    let keys = RandomState::new(&rt)?;
    for (text, runs, expected) in GENUINE.iter() {
        assert!(rt;
            holds(&rt, rt.alloc(), keys, text, *runs, expected)?,
            "{text}"
        );
    }
    Ok(())
}
