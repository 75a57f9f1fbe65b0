//! Single axioms, seeds, and a limit on the nesting below the standard one.
ghost use Rattle.std.specs.Prelude.{◌<◌, ◌^◌, length};

use ad_base::{Limits, Memory};
use ad_io::SureSink;
use ad_lex::LexFault;
use ad_read::{ReadRefused, Unsupported, read_axiom, read_document, read_edit, read_seed};
use ad_tree::{EntityKind, Noted, Seed};
use ad_write::write_to;
use std::alloc::Global;
use std::test::Fail;

// How a text is refused as a single axiom under a limit on the nesting.
fn axiom_refused(alloc: Global, text: &str, depth: u32) -> Option<ReadRefused> {
    let mut limits = Limits::standard();
    if depth < limits.depth {
        limits.depth = depth;
    }
    if text.len() >= 1_000 {
        return None;
    }
    read_axiom(alloc, text.as_bytes(), &limits).err()
}

// Texts, and their first fault as single axioms.
static NO_AXIOMS: [(&str, u32); 10] = [
    ("", 0),
    ("Prefix(a:=<u:>)", 15),
    ("Prefix(a:=<u:>)Ontology(SubClassOf(a:A a:B))", 15),
    ("Prefix(a:=<u:>)-SubClassOf(a:A a:B)", 15),
    ("Prefix(a:=<u:>)Class(a:A)", 15),
    ("Prefix(a:=<u:>)Declaration(Class(a:A))", 15),
    ("SubClassOf(<u:A> <u:B>) SubClassOf(<u:A> <u:B>)", 24),
    ("SubClassOf(ex:A ex:B", 20),
    ("Prefix(a:b=<u:>)SubClassOf(<u:A> <u:B>)", 7),
    ("(((", 0),
];

#[test]
fn texts_of_no_axiom(rt: HostRuntime) -> Result<(), Fail> {
    for (text, at) in NO_AXIOMS.iter().copied() {
        let refused = axiom_refused(rt.alloc(), text, 3);
        assert!(rt; refused == Some(ReadRefused::Syntax { at }), "{text}");
    }
    Ok(())
}

// Texts that are refused for other causes, with a nesting of three at most.
static OTHERS: [(&str, ReadRefused); 6] = [
    ("((((", ReadRefused::Depth { nesting: 4 }),
    (
        "Prefix(a:=<u:>)DLSafeRule(",
        ReadRefused::Unsupported {
            at: 15,
            what: Unsupported::Rule,
        },
    ),
    (
        "SubClassOf(<u:B> DataAllValuesFrom(<u:d> <u:e> <u:t>))",
        ReadRefused::Unsupported {
            at: 47,
            what: Unsupported::Nary,
        },
    ),
    ("SubClassOf(<u:A> ex:B)", ReadRefused::Prefix { at: 17 }),
    (
        "Prefix(a:=<u:>) Prefix(a:=<u:>) SubClassOf(<u:A> <u:B>)",
        ReadRefused::PrefixTwice { at: 23 },
    ),
    (
        "SubClassOf(ex:A > <u:B",
        ReadRefused::Lex(LexFault::Char { at: 16 }),
    ),
];

#[test]
fn other_causes(rt: HostRuntime) -> Result<(), Fail> {
    for (text, cause) in OTHERS.iter().copied() {
        assert!(rt; axiom_refused(rt.alloc(), text, 3) == Some(cause), "{text}");
    }
    Ok(())
}

// The canonical text of an axiom.
fn written(alloc: Global, noted: &Noted) -> Result<SureSink, Memory> {
    let mut sink = SureSink::new(alloc, 1_000)?;
    write_to(noted, &mut sink);
    Ok(sink)
}

// Whether a text is read as the single axiom with this canonical text.
fn is_read_as(alloc: Global, text: &str, want: &str) -> Result<bool, Memory> {
    if text.len() >= 1_000 {
        return Ok(false);
    }
    match read_axiom(alloc, text.as_bytes(), &Limits::standard()) {
        Ok(noted) => Ok(written(alloc, &noted)?.bytes() == want.as_bytes()),
        Err(_) => Ok(false),
    }
}

#[test]
fn single_axioms(rt: HostRuntime) -> Result<(), Fail> {
    let alloc = rt.alloc();
    let first = "SubClassOf(<u:A> owl:Thing)\n";
    let full = "SubClassOf(<u:A> <http://www.w3.org/2002/07/owl#Thing>)";
    assert!(rt; is_read_as(alloc, first, full)?);
    let second = "Prefix(a:=<u:>)SubClassOf(a:A a:B)";
    assert!(rt; is_read_as(alloc, second, "SubClassOf(<u:A> <u:B>)")?);
    Ok(())
}

// Whether a seed has one entity of this kind and name, and nothing before it or behind.
fn has_one(seed: &Seed, kind: EntityKind, name: &str) -> bool {
    match seed.entities() {
        [entity] => entity.kind == kind && entity.name.as_str() == name,
        _ => false,
    }
}

// The seed that a text spells, if it does.
fn seed_of(alloc: Global, text: &str) -> Option<Seed> {
    if text.len() >= 1_000 {
        return None;
    }
    read_seed(alloc, text.as_bytes(), &Limits::standard()).ok()
}

// How many entities the seed of a text has.
fn count_of(alloc: Global, text: &str) -> Option<usize> {
    Some(seed_of(alloc, text)?.entities().len())
}

#[test]
fn seeds(rt: HostRuntime) -> Result<(), Fail> {
    let alloc = rt.alloc();
    let seed = seed_of(alloc, "Prefix(a:=<u:>)NamedIndividual(a:b)").ok_or("refused")?;
    assert!(rt; has_one(&seed, EntityKind::NamedIndividual, "u:b"));
    assert!(rt; count_of(alloc, "Class(<u:A>)Class(<u:A>)") == Some(2));
    assert!(rt; count_of(alloc, "") == Some(0));
    Ok(())
}

// How edits and documents are refused with a nesting of three at most.
fn refused(alloc: Global, text: &[u8]) -> [Option<ReadRefused>; 2]
    requires { length text.now < 2 ^ 32 }
{
    let mut limits = Limits::standard();
    limits.depth = 3;
    let edit = read_edit(alloc, text, &limits).err();
    [edit, read_document(alloc, text, &limits).err()]
}

// One parenthesis of a document doesn't count.
#[test]
fn depths(rt: HostRuntime) -> Result<(), Fail> {
    let syntax = Some(ReadRefused::Syntax { at: 0 });
    let deep = Some(ReadRefused::Depth { nesting: 4 });
    assert!(rt; refused(rt.alloc(), b"(((") == [syntax, syntax]);
    assert!(rt; refused(rt.alloc(), b"((((") == [deep, syntax]);
    assert!(rt; refused(rt.alloc(), b"(((((") == [Some(ReadRefused::Depth { nesting: 5 }), deep]);
    Ok(())
}
