//! The replies that list the atoms of an edition, and the axioms of one.
ghost use Rattle.std.specs.Prelude.{◌≡◌, ◌<◌, length};
ghost use Rattle.ad_io.specs.Sink.{Puts, PutCause};
ghost use Rattle.ad_atoms_text.specs.AtomsText.{atoms_text};
ghost use Rattle.ad_decompose.specs.Decomposed.{atomic_of};
ghost use Rattle.ad_write.specs.Canonical.{canon_document};
ghost use Rattle.ad_reply.specs.Atoms.{is_slot_of, shape_in};
ghost use Rattle.ad_reply.specs.Bodies.{IsAtomBody, IsAtomsBody, axioms_of_atom};
ghost use Rattle.ad_reply.specs.Written.{IsTold, PutsAnswer, ToldCause};

use crate::answers::put_answer_line;
use crate::bodies::put_atoms;
use ad_atoms_text::{atoms_size, atoms_text_fits};
use ad_base::Kind;
use ad_edition::Edition;
use ad_io::{Sink, Wrote};
use ad_module_document::{Choice, document_size_of, write_document_of};
use ad_ontology_atoms::shapes_of_slots;
use ad_tables::Atoms;
use ad_tree::Noted;

/// What became of the reply that tells an atom.
#[derive(Clone, Copy)]
pub enum Told {
    /// It was written.
    All,
    /// There is no such atom but only so many, and nothing was written.
    NoAtom { count: u32 },
    /// The sink failed.
    Failed,
}

// The atom of this number, of atoms in slots: a document has its axioms.
#[derive(Drop)]
pub(crate) struct OneAtom<'a> {
    atoms: &'a Atoms,
    atom: u32,
}

impl<'a> Choice for OneAtom<'a> {
    ghost reach = { λ one. 4294967296 };

    ghost takes = { λ one noted slot. is_slot_of one.atoms.now.atom_of one.atom slot };

    fn takes(&self, _noted: &Noted, slot: Option<u32>) -> bool {
        match slot {
            Some(slot) => self.is_of(slot),
            None => false,
        }
    }
}

impl<'a> OneAtom<'a> {
    // Whether the axiom in this slot is in the atom.
    fn is_of(&self, slot: u32) -> bool
        ensures { result ≡ is_slot_of self.now.atoms.now.atom_of self.now.atom (Some slot) }
    {
        match self.atoms.atom_of(slot) {
            Some(atom) => atom == self.atom,
            None => false,
        }
    }
}

/// Writes the reply that lists the edition's atoms of this kind, with their covers. It takes no memory.
pub fn atoms_reply<K: Sink>(edition: &Edition, kind: Kind, sink: &mut K) -> Wrote
    ensures reply { PutsAnswer (IsAtomsBody kind edition.now.shown.axioms) edition.now.shown.number (K.written sink.old) (K.written sink.new) result }
    ensures cause { PutCause (K.faults sink.old) (K.faults sink.new) result }
{
    edition.laws();
    shapes_of_slots();
    let bytes = atoms_bytes(edition, kind);
    match put_answer_line(edition.number(), bytes, sink) {
        Wrote::All => put_atoms(edition, kind, sink),
        Wrote::Failed => Wrote::Failed,
    }
}

// How many bytes the text has that lists the atoms.
fn atoms_bytes(edition: &Edition, kind: Kind) -> u64
    ensures { result ≡ length (atoms_text (shape_in kind edition.now)) }
{
    edition.laws();
    atoms_text_fits::<u32>();
    atoms_size(edition.atoms(kind), edition.covers(kind))
}

/// Writes the reply that has the document of the axioms of the edition's atom of this number, in the ontology's order;
/// where there is no such atom, it tells how many there are. It takes no memory.
pub fn atom_reply<K: Sink>(edition: &Edition, kind: Kind, atom: u64, sink: &mut K) -> Told
    ensures told { IsTold kind atom edition.now.shown (K.written sink.old) (K.written sink.new) result }
    ensures cause { ToldCause (K.faults sink.old) (K.faults sink.new) result }
{
    edition.laws();
    shapes_of_slots();
    let count = edition.atoms(kind).count();
    if atom < u64::from(count) {
        match put_atom(edition, kind, atom as u32, sink) {
            Wrote::All => Told::All,
            Wrote::Failed => Told::Failed,
        }
    } else {
        Told::NoAtom { count }
    }
}

// Writes the reply of an atom that there is.
fn put_atom<K: Sink>(edition: &Edition, kind: Kind, atom: u32, sink: &mut K) -> Wrote
    requires { atom < length (atomic_of edition.now.found kind).atoms.firsts }
    ensures reply { PutsAnswer (IsAtomBody kind atom edition.now.shown.axioms) edition.now.shown.number (K.written sink.old) (K.written sink.new) result }
    ensures cause { PutCause (K.faults sink.old) (K.faults sink.new) result }
{
    edition.laws();
    shapes_of_slots();
    let bytes = atom_bytes(edition, kind, atom);
    match put_answer_line(edition.number(), bytes, sink) {
        Wrote::All => put_axioms(edition, kind, atom, sink),
        Wrote::Failed => Wrote::Failed,
    }
}

// How many bytes the document of the atom's axioms has.
fn atom_bytes(edition: &Edition, kind: Kind, atom: u32) -> u64
    ensures { result ≡ length (canon_document (axioms_of_atom (shape_in kind edition.now) atom edition.now.shown.axioms)) }
{
    edition.laws();
    let _bytes = edition.bytes();
    let one = OneAtom {
        atoms: edition.atoms(kind),
        atom,
    };
    document_size_of(edition.ontology(), &one)
}

// Writes the document of the atom's axioms.
fn put_axioms<K: Sink>(edition: &Edition, kind: Kind, atom: u32, sink: &mut K) -> Wrote
    ensures bytes { Puts (K.written sink.old) (K.written sink.new) result (canon_document (axioms_of_atom (shape_in kind edition.now) atom edition.now.shown.axioms)) }
    ensures cause { PutCause (K.faults sink.old) (K.faults sink.new) result }
{
    edition.laws();
    let one = OneAtom {
        atoms: edition.atoms(kind),
        atom,
    };
    write_document_of(edition.ontology(), &one, sink)
}
