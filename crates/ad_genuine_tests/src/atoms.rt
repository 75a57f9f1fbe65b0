//! Atoms of small ontologies, and the covers between them.
ghost use Rattle.std.specs.Prelude.{◌≡◌, length, IfOk};
ghost use Rattle.ad_base.specs.declared.limits.Kind.{Kind};
ghost use Rattle.ad_decompose.specs.Decomposed.{atomic_of};
ghost use Rattle.ad_flat.specs.Universes.{most_in, symbols_in};

use crate::universe::{MOST, limits, universe_of};
use ad_base::{Kind, Limits, Memory};
use ad_bits::Row;
use ad_decompose::{Decomposition, live_slots};
use ad_depend::Covers;
use ad_flat::FlatUniverse;
use ad_read::read_document;
use ad_tables::Atoms;
use ad_theory::Tally;
use std::alloc::{AllocError, Global};
use std::hash::RandomState;
use std::test::Fail;
use std::thread::Threads;

// Ontologies, and their atoms and covers on the bottom side, on the top side and of both: for each axiom in order the
// number of its atom, or - where it is a tautology, and then the pairs of an atom and one that it covers.
#[rattlefmt::skip]
static ATOMS: [(&str, [&str; 3]); 9] = [
    ("Ontology()", ["", "", ""]),
    // a tautology is in no atom
    ("Ontology(SubClassOf(<u:A> owl:Thing))", ["-", "-", "-"]),
    ("Ontology(SubClassOf(<u:A> <u:B>) SubClassOf(<u:B> <u:C>))", ["01 0>1", "01 1>0", "01"]),
    ("Ontology(SubClassOf(owl:Thing <u:A>) SubClassOf(<u:A> <u:B>) SubClassOf(<u:C> <u:D>))", ["001 1>0", "012 1>0", "012 1>0"]),
    ("Ontology(SubClassOf(<u:A> <u:B>) SubClassOf(<u:B> <u:C>) SubClassOf(<u:B> <u:A>))", ["000", "010 1>0", "010 1>0"]),
    ("Ontology(SubClassOf(<u:A> <u:A>) EquivalentClasses(<u:A>) SubClassOf(<u:B> owl:Thing))", ["0--", "0--", "0--"]),
    ("Ontology(SubClassOf(owl:Nothing owl:Thing) DisjointClasses(<u:A> <u:B>))", ["-0", "-0", "-0"]),
    // of three in a row, each covers the next alone
    ("Ontology(SubClassOf(<u:A> <u:B>) SubClassOf(<u:B> <u:C>) SubClassOf(<u:C> <u:D>))", ["012 0>1 1>2", "012 1>0 2>1", "012"]),
    // two ways from u:A up to u:D
    ("Ontology(SubClassOf(<u:A> <u:B>) SubClassOf(<u:A> <u:C>) SubClassOf(<u:B> <u:D>) SubClassOf(<u:C> <u:D>))", ["0012 0>1 0>2", "0122 2>0 2>1", "0123"]),
];

// The decomposition of the axioms in the order of their slots.
fn decomposed(
    rt: &(impl Threads + Sync),
    alloc: Global,
    universe: &FlatUniverse,
) -> Result<Decomposition, Memory>
    requires slots { most_in universe.now ≡ MOST }
    requires symbols { symbols_in universe.now ≡ MOST }
    ensures { IfOk result (λ found. (kind : Kind) →
        length (atomic_of found kind).covers.rows ≡ length (atomic_of found kind).atoms.firsts) }
{
    let order = live_slots(alloc, universe)?;
    let mut tally = Tally::new();
    Decomposition::of::<FlatUniverse>(rt, alloc, universe, &limits(), &order, &mut tally)
}

// Writes the atom of each slot below the count.
fn write_atoms(
    alloc: Global,
    line: &mut String,
    atoms: &Atoms,
    count: u32,
) -> Result<(), AllocError> {
    for slot in 0..count {
        match atoms.atom_of(slot) {
            Some(atom) => line.push_str(format!(in alloc; "{atom}")?.as_str())?,
            None => line.push_str("-")?,
        }
    }
    Ok(())
}

// Writes the atom with each of those that it covers.
fn write_covered(
    alloc: Global,
    line: &mut String,
    atom: u32,
    covered: &Row,
) -> Result<(), AllocError> {
    for other in 0..covered.size() {
        if covered.has(other) {
            line.push_str(format!(in alloc; " {atom}>{other}")?.as_str())?;
        }
    }
    Ok(())
}

// Writes the covers of so many atoms.
fn write_covers(
    alloc: Global,
    line: &mut String,
    covers: &Covers,
    count: u32,
) -> Result<(), AllocError>
    requires { length covers.now.rows ≡ count }
{
    for atom in 0..count {
        write_covered(alloc, line, atom, covers.row(atom))?;
    }
    Ok(())
}

// Whether the atoms of the axioms and the covers, of a kind, are these.
fn are_of_kind(
    alloc: Global,
    found: &Decomposition,
    kind: Kind,
    count: u32,
    expected: &str,
) -> Result<bool, AllocError>
    requires { length (atomic_of found.now kind).covers.rows ≡ length (atomic_of found.now kind).atoms.firsts }
{
    let atoms = found.atoms(kind);
    let mut line = String::new(alloc);
    write_atoms(alloc, &mut line, atoms, count)?;
    write_covers(alloc, &mut line, found.covers(kind), atoms.count())?;
    Ok(line.as_str() == expected)
}

// Whether those of each kind are these.
fn are(
    alloc: Global,
    found: &Decomposition,
    count: u32,
    expected: &[&str; 3],
) -> Result<bool, AllocError>
    requires { (kind : Kind) → length (atomic_of found.now kind).covers.rows ≡ length (atomic_of found.now kind).atoms.firsts }
{
    let bottom = are_of_kind(alloc, found, Kind::Bottom, count, expected[0])?;
    let top = are_of_kind(alloc, found, Kind::Top, count, expected[1])?;
    let star = are_of_kind(alloc, found, Kind::Star, count, expected[2])?;
    Ok(bottom && top && star)
}

// Whether the ontology has these atoms and covers.
fn holds(
    rt: &(impl Threads + Sync),
    alloc: Global,
    keys: RandomState,
    text: &str,
    expected: &[&str; 3],
) -> Result<bool, Fail> {
    if text.len() >= 1_000 {
        Err("a long text")?;
    }
    let document = read_document(alloc, text.as_bytes(), &Limits::standard())?;
    if document.ops().len() > MOST as usize {
        Err("many axioms")?;
    }
    let universe = universe_of(alloc, keys, document.ops())?;
    let found = decomposed(rt, alloc, &universe)?;
    Ok(are(alloc, &found, document.ops().len() as u32, expected)?)
}

#[test]
fn atoms_and_covers(rt: HostRuntime) -> Result<(), Fail> {
    let keys = RandomState::new(&rt)?;
    for (text, expected) in ATOMS.iter() {
        assert!(rt; holds(&rt, rt.alloc(), keys, text, expected)?, "{text}");
    }
    Ok(())
}
