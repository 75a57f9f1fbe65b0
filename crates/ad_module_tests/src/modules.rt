//! Modules of small ontologies.
ghost use Rattle.std.specs.Prelude.{◌≤◌, ◌<◌, IfOk, IsTrue, OnOk, length};

use crate::numbered::{MOST, with_numbers};
use ad_base::{Kind, Limits, Memory, Side};
use ad_bits::Row;
use ad_read::{read_document, read_seed};
use ad_signature::signature;
use ad_sweep::sweep;
use ad_tree::{Batch, Op, Seed};
use std::alloc::{AllocError, Global};
use std::hash::RandomState;
use std::test::Fail;

// A document as tools write it.
const ZOO: &str = "Prefix(:=<http://ex.org/a#>)
Prefix(owl:=<http://www.w3.org/2002/07/owl#>)
Prefix(rdf:=<http://www.w3.org/1999/02/22-rdf-syntax-ns#>)
Prefix(xml:=<http://www.w3.org/XML/1998/namespace>)
Prefix(xsd:=<http://www.w3.org/2001/XMLSchema#>)
Prefix(rdfs:=<http://www.w3.org/2000/01/rdf-schema#>)

Ontology(<http://ex.org/a>

Declaration(Class(:Dog))
Declaration(Class(:Animal))
Declaration(AnnotationProperty(rdfs:label))
############################
#   Classes
############################
AnnotationAssertion(rdfs:label :Dog \"Dog\"@en)
SubClassOf(Annotation(rdfs:comment \"told\") :Dog :Animal)
DisjointClasses(:Cat :Cow :Dog :Hen :Pig)
HasKey(:Tag () (:code))
)
";

// An axiom that isn't local for its own name, and four that are local for any names.
const LOCAL: &str =
    "Ontology(DisjointClasses(<u:A> <u:A>) EquivalentClasses(<u:A>) SubClassOf(ObjectMaxCardinality(0 owl:topObjectProperty owl:Thing) <u:B>) SubClassOf(owl:Thing ObjectExactCardinality(0 owl:bottomObjectProperty)) SubClassOf(<u:C> ObjectMinCardinality(0 <u:r>)))";

// Data: values of a datatype below a class, a datatype that is defined, and an assertion.
const DATA: &str =
    "Ontology(SubClassOf(DataSomeValuesFrom(<u:p> <u:d>) <u:A>) DatatypeDefinition(<u:d> xsd:integer) DataPropertyAssertion(<u:q> <u:i> \"1\"))";

const ONE: &str = "Class(<u:A>)";

// Documents with seeds, and for each logical axiom in order 1 where it is in the bottom module, the top module and the
// star module, and 0 where it isn't.
#[rattlefmt::skip]
static MODULES: [(&str, &str, &str, &str, &str); 12] = [
    // the first is above the seed and the second below it, so neither is in both modules
    ("Ontology(SubClassOf(<u:A> <u:B>) SubClassOf(<u:C> <u:A>))", ONE, "10", "01", "00"),
    ("Ontology(SubClassOf(owl:Thing <u:A>))", ONE, "1", "1", "1"),
    // without a seed u:A is everything on the top side
    ("Ontology(SubClassOf(owl:Thing <u:A>))", "", "1", "0", "0"),
    ("Ontology(SubClassOf(<u:A> <u:B>) SubClassOf(<u:B> <u:C>))", ONE, "11", "00", "00"),
    // both are above the seed u:A and below the seed u:C
    ("Ontology(SubClassOf(<u:A> <u:B>) SubClassOf(<u:B> <u:C>))", "Class(<u:A>) Class(<u:C>)", "11", "11", "11"),
    // the first puts everything below u:A, the second is above u:A, and the third is neither
    ("Ontology(SubClassOf(owl:Thing <u:A>) SubClassOf(<u:A> <u:B>) SubClassOf(<u:C> <u:D>))", ONE, "110", "100", "100"),
    // on the top side five disjoint classes are everything, and neither the class nor the property of the key is empty
    (ZOO, ONE, "000", "011", "000"),
    // the first is above the seed
    (ZOO, "Class(<http://ex.org/a#Dog>)", "100", "011", "000"),
    (LOCAL, ONE, "10000", "10000", "10000"),
    // on the bottom side the first brings in u:B, without which the second is local; on the top side u:E is everything
    ("Ontology(SubClassOf(<u:A> ObjectUnionOf(<u:B> <u:E>)) DisjointClasses(<u:B> <u:C>))", "Class(<u:A>) Class(<u:C>)", "11", "01", "00"),
    // on the top side the third brings in u:B, without which the second is local
    ("Ontology(DisjointClasses(<u:A> <u:C>) SubClassOf(<u:A> <u:B>) SubClassOf(<u:B> <u:C>))", "Class(<u:A>) Class(<u:C>)", "111", "111", "111"),
    // without u:p nothing has such a value; with u:p for everything what has one is below u:A, and each assertion on u:q holds
    (DATA, ONE, "011", "110", "010"),
];

fn document(alloc: Global, text: &str) -> Result<Batch, Fail> {
    if text.len() >= 10_000 {
        Err("a long text")?;
    }
    Ok(read_document(alloc, text.as_bytes(), &Limits::standard())?)
}

// Puts a copy of an operation at the end.
fn put(alloc: Global, axioms: &mut Batch, op: &Op) -> Result<(), Fail>
    requires { length axioms.old < MOST }
    ensures { OnOk result (length axioms.new ≤ MOST) }
{
    axioms.push(op.copy(alloc)?)?;
    Ok(())
}

// The logical axioms of a document, which are no more than there may be.
pub(crate) fn logical(alloc: Global, text: &str) -> Result<Batch, Fail>
    ensures { IfOk result (λ axioms. length axioms ≤ MOST) }
{
    let document = document(alloc, text)?;
    let mut axioms = Batch::new(alloc);
    for op in document.ops() {
        if op.noted.is_logical() {
            if axioms.ops().len() >= MOST as usize {
                Err("many axioms")?;
            }
            put(alloc, &mut axioms, op)?;
        }
    }
    Ok(axioms)
}

fn seed_of(alloc: Global, text: &str) -> Result<Seed, Fail> {
    if text.len() >= 10_000 {
        Err("a long text")?;
    }
    Ok(read_seed(alloc, text.as_bytes(), &Limits::standard())?)
}

// The star module by plain sweeps: the bottom module, the top module of it, and so on. Each round but the last one takes
// an axiom away.
fn alternated(alloc: Global, axioms: &Batch, seed: &Seed) -> Result<Batch, Memory> {
    let mut found = sweep(alloc, Side::Bottom, axioms, seed)?;
    for _ in axioms.ops() {
        let under = sweep(alloc, Side::Top, &found, seed)?;
        found = sweep(alloc, Side::Bottom, &under, seed)?;
    }
    Ok(found)
}

// The module by plain sweeps.
fn swept(alloc: Global, kind: Kind, axioms: &Batch, seed: &Seed) -> Result<Batch, Memory> {
    match kind {
        Kind::Bottom => sweep(alloc, Side::Bottom, axioms, seed),
        Kind::Top => sweep(alloc, Side::Top, axioms, seed),
        Kind::Star => alternated(alloc, axioms, seed),
    }
}

// Whether the first of these operations is on the same axiom as another one.
fn is_first(ops: &[Op], other: &Op) -> bool
    ensures { IsTrue result → 1 ≤ length ops.now }
{
    match ops.first() {
        Some(first) => first.noted.same(&other.noted),
        None => false,
    }
}

// For each axiom 1 where it is the next one found, and else 0, and at the end a plus sign where more are found.
fn marks_of_axioms(alloc: Global, axioms: &[Op], found: &[Op]) -> Result<String, AllocError> {
    let mut marks = String::new(alloc);
    let mut rest = found;
    for axiom in axioms {
        if is_first(rest, axiom) {
            rest = &rest[1..];
            marks.push_str("1")?;
        } else {
            marks.push_str("0")?;
        }
    }
    if !rest.is_empty() {
        marks.push_str("+")?;
    }
    Ok(marks)
}

// For each of the first slots 1 where it is in the row, and else 0, and at the end a plus sign where another one is.
fn marks_of_slots(alloc: Global, count: u32, row: &Row) -> Result<String, AllocError> {
    let mut marks = String::new(alloc);
    for slot in 0..count {
        let is_in = slot < row.size() && row.has(slot);
        marks.push_str(if is_in { "1" } else { "0" })?;
    }
    if count <= row.size() && row.next(count).is_some() {
        marks.push_str("+")?;
    }
    Ok(marks)
}

// The module by plain sweeps, in marks.
fn swept_marks(alloc: Global, kind: Kind, axioms: &Batch, seed: &Seed) -> Result<String, Fail> {
    let found = swept(alloc, kind, axioms, seed)?;
    Ok(marks_of_axioms(alloc, axioms.ops(), found.ops())?)
}

// The module over the numbered axioms, in marks.
fn numbered_marks(
    alloc: Global,
    keys: RandomState,
    kind: Kind,
    axioms: &[Op],
    seed: &Seed,
) -> Result<String, Fail>
    requires { length axioms.now ≤ MOST }
{
    let numbered = with_numbers(alloc, keys, axioms)?;
    let row = numbered.module(alloc, kind, seed)?;
    Ok(marks_of_slots(alloc, axioms.len() as u32, &row)?)
}

// The module of axioms for a seed, in marks: by sweeps and over the numbered axioms.
fn both(
    alloc: Global,
    keys: RandomState,
    kind: Kind,
    axioms: &Batch,
    seed: &Seed,
) -> Result<(String, String), Fail>
    requires { length axioms.now ≤ MOST }
{
    let by_sweeps = swept_marks(alloc, kind, axioms, seed)?;
    let by_numbers = numbered_marks(alloc, keys, kind, axioms.ops(), seed)?;
    Ok((by_sweeps, by_numbers))
}

// The same of a document and the text of a seed.
fn both_of_texts(
    alloc: Global,
    keys: RandomState,
    kind: Kind,
    text: &str,
    seed: &str,
) -> Result<(String, String), Fail> {
    let axioms = logical(alloc, text)?;
    let seed = seed_of(alloc, seed)?;
    both(alloc, keys, kind, &axioms, &seed)
}

#[test]
fn modules(rt: HostRuntime) -> Result<(), Fail> {
    let keys = RandomState::new(&rt)?;
    for (text, seed, bottom, top, star) in MODULES.iter().copied() {
        for (kind, marks) in [(Kind::Bottom, bottom), (Kind::Top, top), (Kind::Star, star)] {
            let (by_sweeps, by_numbers) = both_of_texts(rt.alloc(), keys, kind, text, seed)?;
            assert_eq!(rt; by_sweeps.as_str(), marks, "{text}");
            assert_eq!(rt; by_numbers.as_str(), marks, "{text}");
        }
    }
    Ok(())
}

// Whether sweeps and the numbered axioms give the same modules of each kind for the signature of each axiom.
fn agree(alloc: Global, keys: RandomState, axioms: &Batch) -> Result<bool, Fail>
    requires { length axioms.now ≤ MOST }
{
    for op in axioms.ops() {
        let seed = signature(alloc, &op.noted)?;
        for kind in [Kind::Bottom, Kind::Top, Kind::Star] {
            let (by_sweeps, by_numbers) = both(alloc, keys, kind, axioms, &seed)?;
            if by_sweeps.as_str() != by_numbers.as_str() {
                return Ok(false);
            }
        }
    }
    Ok(true)
}

fn agree_on_text(alloc: Global, keys: RandomState, text: &str) -> Result<bool, Fail> {
    let axioms = logical(alloc, text)?;
    agree(alloc, keys, &axioms)
}

#[test]
fn signatures(rt: HostRuntime) -> Result<(), Fail> {
    let keys = RandomState::new(&rt)?;
    for (text, _, _, _, _) in MODULES.iter().copied() {
        assert!(rt; agree_on_text(rt.alloc(), keys, text)?, "{text}");
    }
    Ok(())
}

// How many tests of locality the module of a side for the seed u:A takes.
fn tests_of(alloc: Global, keys: RandomState, side: Side, axioms: &[Op]) -> Result<u64, Fail>
    requires { length axioms.now ≤ MOST }
{
    let seed = seed_of(alloc, ONE)?;
    let numbered = with_numbers(alloc, keys, axioms)?;
    Ok(numbered.by_queue(alloc, side, &seed)?.1)
}

// The same of a document.
fn tests_of_text(alloc: Global, keys: RandomState, side: Side, text: &str) -> Result<u64, Fail> {
    let axioms = logical(alloc, text)?;
    tests_of(alloc, keys, side, axioms.ops())
}

// An axiom between two names outside the module is never looked at.
#[test]
fn tests(rt: HostRuntime) -> Result<(), Fail> {
    let keys = RandomState::new(&rt)?;
    let without = "Ontology(SubClassOf(<u:A> <u:B>) SubClassOf(<u:E> <u:A>))";
    let with = "Ontology(SubClassOf(<u:A> <u:B>) SubClassOf(<u:C> <u:D>) SubClassOf(<u:E> <u:A>))";
    for side in [Side::Bottom, Side::Top] {
        assert_eq!(rt;
            tests_of_text(rt.alloc(), keys, side, "Ontology(SubClassOf(<u:C> <u:D>))")?,
            0
        );
        let tests = tests_of_text(rt.alloc(), keys, side, without)?;
        assert!(rt; tests > 0);
        assert_eq!(rt; tests_of_text(rt.alloc(), keys, side, with)?, tests);
    }
    Ok(())
}
