//! A prefix that is declared twice, and the laws.
use ad_base::{Memory, Word};
use ad_build::{Prefixes, declarations_in_front, one_tree};
use ad_check::{
    Unsupported, fault_is_in_none, nesting_of_fronts, one_first_fault, spelled_is_accepted,
};
use ad_phrases::one_phrase;
use std::alloc::Global;
use std::test::Fail;

// Whether the prefix `a` could be declared as this.
fn is_declared(alloc: Global, prefixes: &mut Prefixes, iri: &str) -> Result<bool, Memory> {
    let iri = Word::of(alloc, iri)?;
    prefixes.declare(alloc, "a", iri)
}

// Whether the prefix `a` stands for this.
fn stands_for(prefixes: &Prefixes, iri: &str) -> bool {
    match prefixes.get("a") {
        Some(found) => found.as_str() == iri,
        None => false,
    }
}

#[test]
fn declared_once(rt: HostRuntime) -> Result<(), Fail> {
    let mut prefixes = Prefixes::standard(rt.alloc())?;
    assert!(rt; prefixes.get("a").is_none());
    assert!(rt; is_declared(rt.alloc(), &mut prefixes, "u:")?);
    assert!(rt; !is_declared(rt.alloc(), &mut prefixes, "v:")?);
    assert!(rt; stands_for(&prefixes, "u:"));
    Ok(())
}

#[test]
fn laws(rt: HostRuntime) {
    one_tree();
    declarations_in_front();
    one_phrase();
    spelled_is_accepted();
    fault_is_in_none();
    one_first_fault();
    nesting_of_fronts();
    assert!(rt; Unsupported::Rule != Unsupported::Import);
}
