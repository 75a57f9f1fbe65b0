use crate::found::{Found, find};
use ad_base::Memory;
use std::alloc::Global;
use std::test::Fail;

// The atom in the middle has two axioms.
fn chain(alloc: Global) -> Result<Found, Memory> {
    let modules = [
        [true, true, true, true],
        [false, true, true, true],
        [false, false, true, false],
        [false, true, true, true],
    ];
    find(alloc, &modules, &[0, 1, 2, 3])
}

#[test]
fn atoms_of_a_chain(rt: HostRuntime) -> Result<(), Fail> {
    let found = chain(rt.alloc())?;
    assert!(rt; found.atoms.count() == 3 && found.atoms.tautologies() == 0);
    assert!(rt; found.begins(0, 0, 1) && found.begins(1, 1, 2) && found.begins(2, 2, 1));
    assert!(rt; found.stand_in([Some(0), Some(1), Some(2), Some(1)]));
    Ok(())
}

#[test]
fn covers_of_a_chain(rt: HostRuntime) -> Result<(), Fail> {
    let found = chain(rt.alloc())?;
    assert!(rt; found.covers.count() == 2);
    assert!(rt; found.covers_just(0, &[1]) && found.covers_just(1, &[2]));
    assert!(rt; found.covers_just(2, &[]));
    assert!(rt; found.is_top(0) && !found.is_top(1) && !found.is_top(2));
    Ok(())
}

// The lowest atom comes first.
fn diamond(alloc: Global) -> Result<Found, Memory> {
    let modules = [
        [true, false, false, false],
        [true, true, false, false],
        [true, false, true, false],
        [true, true, true, true],
    ];
    find(alloc, &modules, &[0, 1, 2, 3])
}

#[test]
fn atoms_of_a_diamond(rt: HostRuntime) -> Result<(), Fail> {
    let found = diamond(rt.alloc())?;
    assert!(rt; found.atoms.count() == 4 && found.atoms.tautologies() == 0);
    assert!(rt; found.stand_in([Some(0), Some(1), Some(2), Some(3)]));
    Ok(())
}

#[test]
fn covers_of_a_diamond(rt: HostRuntime) -> Result<(), Fail> {
    let found = diamond(rt.alloc())?;
    assert!(rt; found.covers.count() == 4);
    assert!(rt; found.covers_just(0, &[]) && found.covers_just(3, &[1, 2]));
    assert!(rt; found.covers_just(1, &[0]) && found.covers_just(2, &[0]));
    assert!(rt; found.is_top(3) && !found.is_top(0) && !found.is_top(1) && !found.is_top(2));
    Ok(())
}

#[test]
fn tautologies_alone(rt: HostRuntime) -> Result<(), Fail> {
    let found = find(rt.alloc(), &[[false; 4]; 4], &[0, 1, 2, 3])?;
    assert!(rt; found.atoms.count() == 0 && found.atoms.tautologies() == 4);
    assert!(rt; found.covers.count() == 0);
    Ok(())
}
