ghost use Rattle.ad_io.specs.Sink.{Puts, PutCause};
ghost use Rattle.ad_atoms_text.specs.AtomsText.{atoms_text};
ghost use Rattle.ad_reply.specs.Atoms.{shape_in};
ghost use Rattle.ad_reply.specs.Written.{PutsAtoms};

use ad_atoms_text::write_atoms;
use ad_base::Kind;
use ad_edition::Edition;
use ad_io::{Sink, Wrote};
use ad_ontology_atoms::shapes_of_slots;

/// Writes the text that lists the edition's atoms of this kind, with their covers. It takes no memory.
pub fn atoms_body<K: Sink>(edition: &Edition, kind: Kind, sink: &mut K) -> Wrote
    ensures text { PutsAtoms kind edition.now.shown.axioms (K.written sink.old) (K.written sink.new) result }
    ensures cause { PutCause (K.faults sink.old) (K.faults sink.new) result }
{
    edition.laws();
    shapes_of_slots();
    put_atoms(edition, kind, sink)
}

// Writes the text that lists the atoms of the edition's slots.
pub(crate) fn put_atoms<K: Sink>(edition: &Edition, kind: Kind, sink: &mut K) -> Wrote
    ensures bytes { Puts (K.written sink.old) (K.written sink.new) result (atoms_text (shape_in kind edition.now)) }
    ensures cause { PutCause (K.faults sink.old) (K.faults sink.new) result }
{
    edition.laws();
    write_atoms(edition.atoms(kind), edition.covers(kind), sink)
}
