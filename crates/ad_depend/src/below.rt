ghost use Rattle.std.specs.Prelude.{◌≡◌, ◌<◌, ◌↔◌, ℕ, List, Bool, Some, length, slice_index, IsTrue, IsFalse, IfOk};
ghost use Rattle.ad_bits.specs.Rows.{has};
ghost use Rattle.ad_tables.specs.Rows.{row_of};
ghost use Rattle.ad_decomposition.specs.Tables.{is_in_row_of};
ghost use Rattle.ad_depend.specs.Numbering.{IsFirst, HasBelow};

use ad_base::{Kind, Memory};
use ad_bits::Row;
use ad_tables::{Atoms, Rows};
use ad_theory::empty_row;
use std::alloc::Global;

// The first slots of the atoms.
pub(crate) fn starts(alloc: Global, slots: u32, atoms: &Atoms) -> Result<Row, Memory>
    requires { (k : ℕ) → k < length atoms.now.firsts → slice_index atoms.now.firsts k < slots }
    ensures size { IfOk result (λ row. length row ≡ slots) }
    ensures starts { IfOk result (λ row. (s : ℕ) → IsTrue (has row s) ↔ IsFirst atoms.now.firsts s) }
{
    let mut row = empty_row(alloc, slots)?;
    for atom in 0..atoms.count() {
        row.set(atoms.first(atom));
    }
    Ok(row)
}

// All slots.
fn full(alloc: Global, size: u32) -> Result<Row, Memory>
    ensures size { IfOk result (λ row. length row ≡ size) }
    ensures full { IfOk result (λ row. (b : ℕ) → b < size → IsTrue (has row b)) }
{
    let mut row = empty_row(alloc, size)?;
    for b in 0..size {
        row.set(b);
    }
    Ok(row)
}

// The slots that aren't members of the row.
pub(crate) fn others(alloc: Global, starts: &Row) -> Result<Row, Memory>
    ensures size { IfOk result (λ row. length row ≡ length starts.now) }
    ensures others { IfOk result (λ row. (s : ℕ) → s < length starts.now →
        IsFalse (has row s) ↔ IsTrue (has starts.now s)) }
{
    let mut row = full(alloc, starts.size())?;
    row.minus_with(starts);
    Ok(row)
}

// Finds the first slots of the other atoms on which this one depends: those in the row of its first slot. The others are
// the slots that are no atom's first.
pub(crate) fn find_below(
    rows: &Rows,
    kind: Kind,
    others: &Row,
    atoms: &Atoms,
    atom: u32,
    left: &mut Row,
)
    requires atom { atom < length atoms.now.firsts }
    requires row { (row : List Bool) × (row_of rows.now kind (slice_index atoms.now.firsts atom) ≡ Some row) × (length row ≡ length others.now) }
    requires within { slice_index atoms.now.firsts atom < length others.now }
    requires room { length left.old ≡ length others.now }
    requires others { (s : ℕ) → s < length others.now → IsFalse (has others.now s) ↔ IsFirst atoms.now.firsts s }
    ensures size { length left.new ≡ length left.old }
    ensures below { HasBelow (is_in_row_of rows.now kind) atoms.now.firsts (slice_index atoms.now.firsts atom) left.new }
{
    let first = atoms.first(atom);
    let Some(row) = rows.row(kind, first) else {
        unreachable!()
    };
    left.copy_from(row);
    left.minus_with(others);
    left.unset(first);
}

// The atoms whose first slots are members.
pub(crate) fn over_atoms(alloc: Global, slots: &Row, atoms: &Atoms) -> Result<Row, Memory>
    requires { (k : ℕ) → k < length atoms.now.firsts → slice_index atoms.now.firsts k < length slots.now }
    ensures size { IfOk result (λ row. length row ≡ length atoms.now.firsts) }
    ensures atoms { IfOk result (λ row. (j : ℕ) → j < length atoms.now.firsts →
        has row j ≡ has slots.now (slice_index atoms.now.firsts j)) }
{
    let mut row = empty_row(alloc, atoms.count())?;
    for atom in 0..atoms.count() {
        if slots.has(atoms.first(atom)) {
            row.set(atom);
        }
    }
    Ok(row)
}
