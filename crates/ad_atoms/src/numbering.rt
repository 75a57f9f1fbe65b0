ghost use Rattle.std.specs.Prelude.{◌≡◌, ◌<◌, ◌^◌, ℕ, None, Some, length, nat_eq, slice_index_or, if◌then◌else◌, IfOk, IsSome, IsTrue};
ghost use Rattle.std.specs.List.{IsDistinct};
ghost use Rattle.ad_bits.specs.Rows.{has};
ghost use Rattle.ad_theory.specs.Numbers.{sum_where};
ghost use Rattle.ad_tables.specs.Rows.{of_kind, row_of};
ghost use Rattle.ad_decomposition.specs.Atoms.{AreAtoms};
ghost use Rattle.ad_decomposition.specs.Tables.{AreNested, HaveRows, is_in_row_of};
ghost use Rattle.ad_sizes.specs.Sizes.{sizes_of};
ghost use Rattle.ad_atoms.specs.Numbering.{IsListed, is_mutual};

use ad_base::{Kind, Memory};
use ad_bits::Row;
use ad_sizes::Sizes;
use ad_tables::{Atoms, Rows};
use ad_theory::empty_row;
use std::alloc::Global;

// The row of a slot that has one.
fn row_at(rows: &Rows, kind: Kind, slot: u32) -> &Row
    requires { IsSome (row_of rows.now kind slot) }
    ensures { row_of rows.now kind slot ≡ Some result.now }
{
    rows.row(kind, slot).unwrap()
}

// Finds the slots whose rows are the same as this one's: those of its members whose rows are the largest.
fn find_same(rows: &Rows, kind: Kind, row_sizes: &Sizes, first: u32, members: &mut Row)
    requires sizes { row_sizes.now ≡ sizes_of rows.now kind }
    requires room { length members.old ≡ length (of_kind rows.now kind) }
    requires listed { IsListed rows.now kind first }
    requires own { IsTrue (is_in_row_of rows.now kind first first) }
    ensures size { length members.new ≡ length members.old }
    ensures same { (b : ℕ) → has members.new b ≡ is_mutual (is_in_row_of rows.now kind) first b }
{
    members.copy_from(row_at(rows, kind, first));
    row_sizes.keep_largest(members);
}

// Puts the members into the atom, and tells how many they are.
fn gather(members: &Row, atom: u32, atom_of: &mut Vec<Option<u32>>) -> u32
    requires few { length atom_of.old.items < 2 ^ 32 }
    requires members { length members.now ≡ length atom_of.old.items }
    ensures size { result ≡ sum_where (has members.now) (λ _. 1) (length atom_of.old.items) }
    ensures long { length atom_of.new.items ≡ length atom_of.old.items }
    ensures entries { (b : ℕ) → slice_index_or atom_of.new.items b None ≡
        (if has members.now b then Some atom else slice_index_or atom_of.old.items b None) }
{
    let mut size = 0;
    let mut from = 0;
    while let Some(slot) = members.next(from) {
        atom_of[slot as usize] = Some(atom);
        size += 1;
        from = slot + 1;
    }
    size
}

// The atoms, by the sizes of the rows, with room for a row over the slots.
fn numbered(
    alloc: Global,
    rows: &Rows,
    kind: Kind,
    order: &[u32],
    row_sizes: &Sizes,
    members: &mut Row,
) -> Result<Atoms, Memory>
    requires few { length order.now < 2 ^ 32 }
    requires distinct { IsDistinct nat_eq order.now }
    requires rows { HaveRows rows.now kind (length (of_kind rows.now kind)) order.now }
    requires nested { AreNested (is_in_row_of rows.now kind) order.now }
    requires sizes { row_sizes.now ≡ sizes_of rows.now kind }
    requires room { length members.old ≡ length (of_kind rows.now kind) }
    ensures { IfOk result (AreAtoms (is_in_row_of rows.now kind) order.now) }
{
    let mut atom_of = vec![in alloc; None; rows.slots() as usize]?;
    let mut firsts = Vec::new(alloc);
    let mut sizes = Vec::new(alloc);
    let mut tautologies = 0;
    for slot in order {
        if !row_at(rows, kind, *slot).has(*slot) {
            tautologies += 1;
        } else if atom_of[*slot as usize].is_none() {
            let atom = firsts.len() as u32;
            find_same(rows, kind, row_sizes, *slot, members);
            let size = gather(members, atom, &mut atom_of);
            firsts.push(*slot)?;
            sizes.push(size)?;
        }
    }
    Ok(Atoms::of(atom_of, firsts, sizes, tautologies))
}

/// The atoms of the axioms in these slots, listed in the ontology's order, by their genuine modules.
pub fn atoms(alloc: Global, rows: &Rows, kind: Kind, order: &[u32]) -> Result<Atoms, Memory>
    requires few { length order.now < 2 ^ 32 }
    requires distinct { IsDistinct nat_eq order.now }
    requires rows { HaveRows rows.now kind (length (of_kind rows.now kind)) order.now }
    requires nested { AreNested (is_in_row_of rows.now kind) order.now }
    ensures { IfOk result (AreAtoms (is_in_row_of rows.now kind) order.now) }
{
    let row_sizes = Sizes::of(alloc, rows, kind)?;
    let mut members = empty_row(alloc, rows.slots())?;
    numbered(alloc, rows, kind, order, &row_sizes, &mut members)
}
