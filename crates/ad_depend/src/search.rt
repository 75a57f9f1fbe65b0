ghost use Rattle.std.specs.Prelude.{◌≡◌, ◌<◌, ◌↔◌, ◌^◌, ℕ, List, [], length, slice_index, slice_index_or, IsTrue, IsFalse, IfOk};
ghost use Rattle.ad_bits.specs.Rows.{has};
ghost use Rattle.ad_tables.specs.Rows.{of_kind};
ghost use Rattle.ad_decomposition.specs.Atoms.{AreAtoms, AreCovers, is_top};
ghost use Rattle.ad_decomposition.specs.Tables.{AreNested, HaveRows, is_in_row_of};
ghost use Rattle.ad_sizes.specs.Sizes.{sizes_of};
ghost use Rattle.ad_depend.specs.Numbering.{AreAtomsOfOrder, AreAtomsOfRows, IsFirst};

use crate::below::{find_below, others, over_atoms, starts};
use crate::found::Covers;
use crate::largest::covered;
use ad_base::{Kind, Memory};
use ad_bits::Row;
use ad_sizes::Sizes;
use ad_tables::{Atoms, Rows};
use ad_theory::empty_row;
use std::alloc::Global;

// For each atom the row of those that it covers. Of the tops, which are first slots, those are left on which no other
// atom depends.
fn search(
    alloc: Global,
    rows: &Rows,
    kind: Kind,
    atoms: &Atoms,
    others: &Row,
    tops: &mut Row,
) -> Result<Vec<Row>, Memory>
    requires numbered { AreAtomsOfRows rows.now kind atoms.now }
    requires others { length others.now ≡ length (of_kind rows.now kind) }
    requires firsts { (s : ℕ) → s < length others.now → IsFalse (has others.now s) ↔ IsFirst atoms.now.firsts s }
    requires size { length tops.old ≡ length (of_kind rows.now kind) }
    requires tops { (s : ℕ) → IsTrue (has tops.old s) ↔ IsFirst atoms.now.firsts s }
    ensures size { length tops.new ≡ length tops.old }
    ensures count { IfOk result (λ found. length found.items ≡ length atoms.now.firsts) }
    ensures few { IfOk result (λ found. length found.items < 2 ^ 32) }
    ensures covers { (order : List ℕ) → AreAtomsOfOrder rows.now kind order atoms.now →
        IfOk result (λ found. AreCovers (is_in_row_of rows.now kind) order found.items) }
    ensures tops { (order : List ℕ) → AreAtomsOfOrder rows.now kind order atoms.now → IfOk result (λ found. (j d : ℕ) →
        j < length atoms.now.firsts → has tops.new (slice_index atoms.now.firsts j) ≡
        is_top (is_in_row_of rows.now kind) order (slice_index_or atoms.now.firsts j d)) }
{
    let sizes = Sizes::of(alloc, rows, kind)?;
    let mut left = empty_row(alloc, rows.slots())?;
    let mut largest = empty_row(alloc, rows.slots())?;
    let mut found = Vec::with_capacity(alloc, atoms.count() as usize)?;
    for atom in 0..atoms.count() {
        find_below(rows, kind, others, atoms, atom, &mut left);
        tops.minus_with(&left);
        let row = covered(
            alloc,
            rows,
            kind,
            atoms,
            &sizes,
            atom,
            &mut left,
            &mut largest,
        )?;
        found.push(row)?;
    }
    Ok(found)
}

/// The covers of the atoms that rows have.
pub fn covers(alloc: Global, rows: &Rows, kind: Kind, atoms: &Atoms) -> Result<Covers, Memory>
    requires { AreAtomsOfRows rows.now kind atoms.now }
    ensures covers { (order : List ℕ) → HaveRows rows.now kind (length (of_kind rows.now kind)) order →
        AreNested (is_in_row_of rows.now kind) order → AreAtoms (is_in_row_of rows.now kind) order atoms.now →
        IfOk result (λ found. AreCovers (is_in_row_of rows.now kind) order found.rows) }
    ensures tops { (order : List ℕ) → HaveRows rows.now kind (length (of_kind rows.now kind)) order →
        AreNested (is_in_row_of rows.now kind) order → AreAtoms (is_in_row_of rows.now kind) order atoms.now →
        IfOk result (λ found. (j d : ℕ) → j < length found.rows →
        has found.tops j ≡ is_top (is_in_row_of rows.now kind) order (slice_index_or atoms.now.firsts j d)) }
{
    let mut tops = starts(alloc, rows.slots(), atoms)?;
    let others = others(alloc, &tops)?;
    let found = search(alloc, rows, kind, atoms, &others, &mut tops)?;
    Ok(Covers::of(found, over_atoms(alloc, &tops, atoms)?))
}
