ghost use Rattle.std.specs.Prelude.{◌≡◌, ◌<◌, ◌&&◌, ℕ, List, Bool, Some, not, length, slice_index, IsTrue, IsFalse, IfOk, IfSome, IfNone};
ghost use Rattle.ad_bits.specs.Rows.{has};
ghost use Rattle.ad_tables.specs.Rows.{of_kind, row_of};
ghost use Rattle.ad_decomposition.specs.Tables.{is_in_row_of};
ghost use Rattle.ad_sizes.specs.Sizes.{sizes_of};
ghost use Rattle.ad_depend.specs.Numbering.{AreAtomsOfOrder, AreAtomsOfRows, HasBelow, HasCovers, IsLargestOf};

use ad_base::{Kind, Memory};
use ad_bits::Row;
use ad_sizes::Sizes;
use ad_tables::{Atoms, Rows};
use ad_theory::empty_row;
use std::alloc::Global;

// The least of the members whose rows are the largest.
fn next_largest(sizes: &Sizes, left: &Row, largest: &mut Row) -> Option<u32>
    requires left { length left.now ≡ length sizes.now }
    requires room { length largest.old ≡ length sizes.now }
    ensures size { length largest.new ≡ length largest.old }
    ensures some { IfSome result (IsLargestOf (slice_index sizes.now) left.now) }
    ensures none { IfNone result ((k : ℕ) → IsFalse (has left.now k)) }
{
    left.next(0)?;
    largest.copy_from(left);
    sizes.keep_largest(largest);
    largest.next(0)
}

// Takes the row of a slot away.
fn take_away(rows: &Rows, kind: Kind, slot: u32, left: &mut Row)
    requires { (row : List Bool) × (row_of rows.now kind slot ≡ Some row) × (length row ≡ length left.old) }
    ensures size { length left.new ≡ length left.old }
    ensures gone { (k : ℕ) → has left.new k ≡ (has left.old k && not (is_in_row_of rows.now kind slot k)) }
{
    let Some(row) = rows.row(kind, slot) else {
        unreachable!()
    };
    left.minus_with(row);
}

// The atoms that this one covers. From the first slots of the others on which it depends the one with the largest row is
// covered, and what depends on nothing but through it goes with its row.
pub(crate) fn covered(
    alloc: Global,
    rows: &Rows,
    kind: Kind,
    atoms: &Atoms,
    sizes: &Sizes,
    atom: u32,
    left: &mut Row,
    largest: &mut Row,
) -> Result<Row, Memory>
    requires numbered { AreAtomsOfRows rows.now kind atoms.now }
    requires atom { atom < length atoms.now.firsts }
    requires sizes { sizes.now ≡ sizes_of rows.now kind }
    requires left { length left.old ≡ length (of_kind rows.now kind) }
    requires room { length largest.old ≡ length (of_kind rows.now kind) }
    requires below { HasBelow (is_in_row_of rows.now kind) atoms.now.firsts (slice_index atoms.now.firsts atom) left.old }
    ensures left { length left.new ≡ length left.old }
    ensures room { length largest.new ≡ length largest.old }
    ensures size { IfOk result (λ row. length row ≡ length atoms.now.firsts) }
    ensures covers { (order : List ℕ) → AreAtomsOfOrder rows.now kind order atoms.now →
        IfOk result (HasCovers (is_in_row_of rows.now kind) order atom) }
{
    let mut row = empty_row(alloc, atoms.count())?;
    'covers: while let Some(member) = next_largest(sizes, left, largest) {
        let Some(cover) = atoms.atom_of(member) else {
            unreachable!()
        };
        row.set(cover);
        take_away(rows, kind, member, left);
    }
    Ok(row)
}
