ghost use Rattle.std.specs.Prelude.{◌≡◌, ◌<◌, ◌^◌, None, length, slice_index, slice_index_or};
ghost use Rattle.ad_tables.specs.Rows.{Numbered};

use std::marker::Model;

/// The atoms of a kind, numbered from 0, and how many axioms are in none.
#[derive(Drop)]
pub struct Atoms {
    atom_of: Vec<Option<u32>>,
    firsts: Vec<u32>,
    sizes: Vec<u32>,
    tautologies: u32,
}

impl Model for Atoms {
    ghost use Rattle.std.specs.Prelude.{◌≡◌, ◌<◌, ◌^◌, length};
    ghost use Rattle.ad_tables.specs.Rows.{Numbered};

    ghost Value = { Numbered };

    ghost view = { λ atoms. record {
      atom_of = atoms.atom_of.items;
      firsts = atoms.firsts.items;
      sizes = atoms.sizes.items;
      tautologies = atoms.tautologies;
    } };

    ghost invariant = { λ atoms. (length atoms.firsts.items < 2 ^ 32) × (length atoms.sizes.items ≡ length atoms.firsts.items) };
}

impl Atoms {
    /// Atoms from the atom of each slot, the first slot and the size of each atom, and the number of tautologies.
    pub fn of(
        atom_of: Vec<Option<u32>>,
        firsts: Vec<u32>,
        sizes: Vec<u32>,
        tautologies: u32,
    ) -> Atoms
        requires few { length firsts.items < 2 ^ 32 }
        requires sizes { length sizes.items ≡ length firsts.items }
        ensures { result ≡ record { atom_of = atom_of.items; firsts = firsts.items; sizes = sizes.items; tautologies = tautologies } }
    {
        Atoms {
            atom_of,
            firsts,
            sizes,
            tautologies,
        }
    }

    /// How many atoms there are.
    pub fn count(&self) -> u32
        ensures { result ≡ length self.now.firsts }
    {
        self.firsts.len() as u32
    }

    /// How many axioms are tautologies: those that are in no module, and so in no atom.
    pub fn tautologies(&self) -> u32
        ensures { result ≡ self.now.tautologies }
    {
        self.tautologies
    }

    /// The slot of the atom's first axiom, in the ontology's order.
    pub fn first(&self, atom: u32) -> u32
        requires { atom < length self.now.firsts }
        ensures { result ≡ slice_index self.now.firsts atom }
    {
        self.firsts[atom as usize]
    }

    /// How many axioms the atom has.
    pub fn size_of(&self, atom: u32) -> u32
        requires { atom < length self.now.firsts }
        ensures { result ≡ slice_index self.now.sizes atom }
    {
        self.sizes[atom as usize]
    }

    /// The atom of the slot's axiom; None exactly where it has none.
    pub fn atom_of(&self, slot: u32) -> Option<u32>
        ensures { result ≡ slice_index_or self.now.atom_of slot None }
    {
        match self.atom_of.get(slot as usize) {
            Some(Some(atom)) => Some(*atom),
            _ => None,
        }
    }
}
