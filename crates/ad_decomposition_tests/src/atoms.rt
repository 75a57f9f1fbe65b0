use crate::found::find;
use ad_base::Memory;
use ad_tables::Atoms;
use std::alloc::Global;
use std::test::Fail;

const NONE: [bool; 4] = [false; 4];

// The first of these atoms begins with slot 3, and slot 1 is in none.
fn two_atoms(alloc: Global) -> Result<Atoms, Memory> {
    let atom_of = vec![in alloc; Some(1), None, Some(0), Some(0)]?;
    let firsts = vec![in alloc; 3, 0]?;
    let sizes = vec![in alloc; 2, 1]?;
    Ok(Atoms::of(atom_of, firsts, sizes, 1))
}

// Whether there are two atoms with these first slots and sizes.
fn are_two(atoms: &Atoms, firsts: [u32; 2], sizes: [u32; 2]) -> bool {
    atoms.count() == 2
        && atoms.first(0) == firsts[0]
        && atoms.first(1) == firsts[1]
        && atoms.size_of(0) == sizes[0]
        && atoms.size_of(1) == sizes[1]
}

#[test]
fn given_atoms(rt: HostRuntime) -> Result<(), Fail> {
    let atoms = two_atoms(rt.alloc())?;
    assert!(rt; are_two(&atoms, [3, 0], [2, 1]) && atoms.tautologies() == 1);
    let table = [
        (0, Some(1)),
        (1, None),
        (2, Some(0)),
        (3, Some(0)),
        (4, None),
    ];
    for (slot, atom) in table {
        assert!(rt; atoms.atom_of(slot) == atom);
    }
    Ok(())
}

#[test]
fn two_in_one_atom(rt: HostRuntime) -> Result<(), Fail> {
    let both = [true, true, false, false];
    let found = find(rt.alloc(), &[both, both, NONE, NONE], &[0, 1, 2])?;
    assert!(rt; found.atoms.count() == 1 && found.begins(0, 0, 2));
    assert!(rt; found.stand_in([Some(0), Some(0), None, None]));
    assert!(rt; found.atoms.tautologies() == 1);
    Ok(())
}

#[test]
fn no_axioms(rt: HostRuntime) -> Result<(), Fail> {
    let found = find(rt.alloc(), &[NONE, NONE, NONE, NONE], &[])?;
    assert!(rt; found.atoms.count() == 0 && found.atoms.tautologies() == 0);
    assert!(rt; found.stand_in([None; 4]));
    Ok(())
}

#[test]
fn numbers_follow_the_order(rt: HostRuntime) -> Result<(), Fail> {
    let all = [true, true, true, false];
    let found = find(
        rt.alloc(),
        &[[true, false, false, false], all, all, NONE],
        &[2, 0, 1],
    )?;
    assert!(rt; found.atoms.count() == 2);
    assert!(rt; found.begins(0, 2, 2) && found.begins(1, 0, 1));
    assert!(rt; found.stand_in([Some(1), Some(0), Some(0), None]));
    Ok(())
}

#[test]
fn one_below_all_others(rt: HostRuntime) -> Result<(), Fail> {
    let first = [true, false, false, false];
    let second = [true, true, false, false];
    let third = [true, false, true, false];
    let found = find(rt.alloc(), &[first, second, third, NONE], &[0, 1, 2])?;
    assert!(rt; found.atoms.count() == 3 && found.atoms.tautologies() == 0);
    assert!(rt; found.begins(0, 0, 1));
    assert!(rt; found.stand_in([Some(0), Some(1), Some(2), None]));
    Ok(())
}
