ghost use Rattle.std.specs.Prelude.{◌≡◌, ◌<◌, ◌^◌, length, IfOk, IsTrue};
ghost use Rattle.ad_decomposition_tests.specs.Modules.{is_example, tables_of};

use ad_base::{Kind, Memory};
use ad_bits::Row;
use ad_depend::Covers;
use ad_tables::{Atoms, Rows};
use ad_theory::empty_row;
use std::alloc::Global;
use std::sync::Arc;

// A row with these members.
fn row_of(alloc: Global, members: &[bool]) -> Result<Row, Memory>
    requires { length members.now < 2 ^ 32 }
    ensures { IfOk result (λ row. row ≡ members.now) }
{
    let mut row = empty_row(alloc, members.len() as u32)?;
    for (i, is_member) in members.iter().enumerate() {
        if *is_member {
            row.set(i as u32);
        }
    }
    Ok(row)
}

// Star rows of these modules.
fn table(alloc: Global, modules: &[[bool; 4]]) -> Result<Rows, Memory>
    requires { length modules.now < 2 ^ 32 }
    ensures { IfOk result (λ rows. rows ≡ tables_of modules.now) }
{
    let mut rows = Rows::new(alloc, modules.len() as u32)?;
    for (slot, module) in modules.iter().enumerate() {
        let row = Arc::new(alloc, row_of(alloc, module)?)?;
        rows.put(Kind::Star, slot as u32, row);
    }
    Ok(rows)
}

// Atoms and the covers between them.
#[derive(Drop)]
pub(crate) struct Found {
    pub(crate) atoms: Atoms,
    pub(crate) covers: Covers,
    ghost same: { length covers.rows ≡ length atoms.firsts },
}

// What is found for axioms with these star modules, listed in this order.
pub(crate) fn find(alloc: Global, modules: &[[bool; 4]], order: &[u32]) -> Result<Found, Memory>
    requires modules { length modules.now < 2 ^ 32 }
    requires order { length order.now < 2 ^ 32 }
    requires example { IsTrue (is_example modules.now order.now) }
{
    let rows = table(alloc, modules)?;
    let atoms = ad_atoms::atoms(alloc, &rows, Kind::Star, order)?;
    let covers = ad_depend::covers(alloc, &rows, Kind::Star, &atoms)?;
    Ok(Found { atoms, covers })
}

impl Found {
    // Whether the atom begins with this slot and has so many axioms.
    pub(crate) fn begins(&self, atom: u32, first: u32, size: u32) -> bool {
        atom < self.atoms.count()
            && self.atoms.first(atom) == first
            && self.atoms.size_of(atom) == size
    }

    // Whether these are the atoms of the four slots.
    pub(crate) fn stand_in(&self, places: [Option<u32>; 4]) -> bool {
        self.atoms.atom_of(0) == places[0]
            && self.atoms.atom_of(1) == places[1]
            && self.atoms.atom_of(2) == places[2]
            && self.atoms.atom_of(3) == places[3]
    }

    // Whether the atom covers these others, and no more.
    pub(crate) fn covers_just(&self, atom: u32, others: &[u32]) -> bool {
        if atom >= self.atoms.count() {
            return false;
        }
        let row = self.covers.row(atom);
        row.count() as usize == others.len()
            && others.iter().all(|j| *j < row.size() && row.has(*j))
    }

    // Whether no other atom depends on this one.
    pub(crate) fn is_top(&self, atom: u32) -> bool {
        atom < self.atoms.count() && self.covers.is_top(atom)
    }
}
