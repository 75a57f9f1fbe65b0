//! A universe after many insertions and removals.
use crate::modules::logical;
use crate::numbered::{MOST, Numbered, with_numbers};
use ad_base::{Kind, Memory};
use ad_signature::signature;
use ad_tree::{Noted, Op, Seed};
use std::alloc::Global;
use std::hash::RandomState;
use std::test::Fail;

// Twelve axioms.
const AXIOMS: &str = "Ontology(
SubClassOf(<u:A> <u:B>)
SubClassOf(<u:B> <u:C>)
EquivalentClasses(<u:C> ObjectSomeValuesFrom(<u:r> <u:D>))
DisjointClasses(<u:A> <u:D>)
SubClassOf(owl:Thing <u:E>)
SubClassOf(<u:E> ObjectUnionOf(<u:A> <u:F>))
ObjectPropertyDomain(<u:r> <u:B>)
SubObjectPropertyOf(<u:r> <u:s>)
ClassAssertion(<u:D> <u:i>)
ObjectPropertyAssertion(<u:s> <u:i> <u:j>)
DataPropertyRange(<u:p> <u:d>)
SubClassOf(DataSomeValuesFrom(<u:p> <u:d>) <u:F>))";

// Changes, one after another: each letter inserts the axiom with its place in the alphabet, or removes it where it is
// there. At the end eight axioms are there, and no slot below theirs is free.
#[rattlefmt::skip]
const CHANGES: &str = "jelfllkiahdkacbfhdgibjdaldgecgcbcjjhccaaddccefdikkdcldgeafgccebfejjajklfbefehlfchhlcaealfgaigfgjahalcjdbdhfifiehbjlfeagbdfijfcfelibekfecbkcllehclabjigadljfehkgcakahfdcljckgbcgfcagechjcihhllfheehgcbgic";

// Where each of twelve axioms is.
type Places = [Option<u32>; 12];

// No axioms, and numbers for the entities of these.
fn named(alloc: Global, keys: RandomState, axioms: &[Op]) -> Result<Numbered, Fail> {
    let mut numbered = with_numbers(alloc, keys, axioms)?;
    numbered.clear(alloc)?;
    Ok(numbered)
}

// Inserts an axiom, or removes it where it is there, and says where it is then.
fn change(
    alloc: Global,
    numbered: &mut Numbered,
    place: Option<u32>,
    noted: &Noted,
) -> Result<Option<u32>, Fail> {
    let Some(slot) = place else {
        return Ok(Some(numbered.insert(alloc, noted)?));
    };
    numbered.remove(slot);
    Ok(None)
}

// Makes the changes, and says where the axioms are then.
fn change_all(alloc: Global, numbered: &mut Numbered, axioms: &[Op]) -> Result<Places, Fail> {
    let mut places = [None; 12];
    for letter in CHANGES.as_bytes() {
        let i = letter.wrapping_sub(b'a') as usize;
        if i >= 12 || i >= axioms.len() {
            Err("no such axiom")?;
        }
        places[i] = change(alloc, numbered, places[i], &axioms[i].noted)?;
    }
    Ok(places)
}

// Inserts the axiom that is in this place, where there is one.
fn insert_from(
    alloc: Global,
    numbered: &mut Numbered,
    axioms: &[Op],
    places: &Places,
    slot: u32,
) -> Result<(), Fail> {
    for (axiom, place) in axioms.iter().zip(places.iter()) {
        if *place == Some(slot) {
            numbered.insert(alloc, &axiom.noted)?;
        }
    }
    Ok(())
}

// The axioms in their places, in a universe that is built anew.
fn anew(
    alloc: Global,
    keys: RandomState,
    axioms: &[Op],
    places: &Places,
) -> Result<Numbered, Fail> {
    let mut numbered = named(alloc, keys, axioms)?;
    for slot in 0..MOST {
        insert_from(alloc, &mut numbered, axioms, places, slot)?;
    }
    Ok(numbered)
}

// Whether both give the same module of this kind.
fn have_module(
    alloc: Global,
    one: &Numbered,
    other: &Numbered,
    kind: Kind,
    seed: &Seed,
) -> Result<bool, Memory> {
    let module = one.module(alloc, kind, seed)?;
    Ok(module.same(&other.module(alloc, kind, seed)?))
}

// Whether both give the same modules of each kind.
fn have_modules(
    alloc: Global,
    one: &Numbered,
    other: &Numbered,
    seed: &Seed,
) -> Result<bool, Memory> {
    Ok(
        have_module(alloc, one, other, Kind::Bottom, seed)?
            && have_module(alloc, one, other, Kind::Top, seed)?
            && have_module(alloc, one, other, Kind::Star, seed)?,
    )
}

// Whether both give the same modules for the signature of each axiom.
fn agree(alloc: Global, one: &Numbered, other: &Numbered, axioms: &[Op]) -> Result<bool, Memory> {
    for axiom in axioms {
        let seed = signature(alloc, &axiom.noted)?;
        if !have_modules(alloc, one, other, &seed)? {
            return Ok(false);
        }
    }
    Ok(true)
}

// The universe after the changes, and where its axioms are.
fn changed(alloc: Global, keys: RandomState, axioms: &[Op]) -> Result<(Numbered, Places), Fail> {
    let mut numbered = named(alloc, keys, axioms)?;
    let places = change_all(alloc, &mut numbered, axioms)?;
    Ok((numbered, places))
}

// Whether all is as in a universe that is built anew with the axioms in these places.
fn is_as_anew(
    alloc: Global,
    keys: RandomState,
    axioms: &[Op],
    numbered: &Numbered,
    places: &Places,
) -> Result<bool, Fail> {
    let anew = anew(alloc, keys, axioms, places)?;
    Ok(numbered.is_alike(&anew) && agree(alloc, numbered, &anew, axioms)?)
}

// Whether after the changes all is as in a universe that is built anew.
fn changed_is_as_anew(alloc: Global, keys: RandomState, axioms: &[Op]) -> Result<bool, Fail> {
    let (numbered, places) = changed(alloc, keys, axioms)?;
    is_as_anew(alloc, keys, axioms, &numbered, &places)
}

#[test]
fn changes(rt: HostRuntime) -> Result<(), Fail> {
    let keys = RandomState::new(&rt)?;
    let axioms = logical(rt.alloc(), AXIOMS)?;
    assert!(rt; changed_is_as_anew(rt.alloc(), keys, axioms.ops())?);
    Ok(())
}
