//! The summary of an edition.
ghost use Rattle.ad_io.specs.Sink.{Puts, PutCause};
ghost use Rattle.ad_reply.specs.Atoms.{shape_in};
ghost use Rattle.ad_summary.specs.Summary.{line_of_axioms, line_of_kind, summary_in, PutsSummary};

use crate::counts::{atom_count, carried_count, cover_count, tautology_count};
use crate::lines::{put_axioms_line, put_kind_line, put_tautologies_line};
use ad_base::Kind;
use ad_edition::Edition;
use ad_io::{Sink, Wrote};
use ad_lines::{Inked, Pen};
use ad_ontology_atoms::shapes_of_slots;

/// Writes the summary of the edition: how many axioms, entities and tautologies it has, and of each kind how many atoms
/// and covers. It takes no memory.
pub fn summary_body<K: Sink>(edition: &Edition, sink: &mut K) -> Wrote
    ensures text { PutsSummary edition.now.shown.axioms (K.written sink.old) (K.written sink.new) result }
    ensures cause { PutCause (K.faults sink.old) (K.faults sink.new) result }
{
    edition.laws();
    shapes_of_slots();
    put_summary(edition, sink)
}

// Writes the summary, by the atoms of the edition's slots.
fn put_summary<K: Sink>(edition: &Edition, sink: &mut K) -> Wrote
    ensures bytes { Puts (K.written sink.old) (K.written sink.new) result (summary_in edition.now) }
    ensures cause { PutCause (K.faults sink.old) (K.faults sink.new) result }
{
    let mut pen = Inked::over(sink);
    put_lines(&mut pen, edition);
    pen.end()
}

// Writes the lines with any pen.
fn put_lines<P: Pen>(pen: &mut P, edition: &Edition)
    ensures { P.writes pen.old pen.new (summary_in edition.now) }
{
    put_axioms(pen, edition);
    put_tautologies_line(pen, tautology_count(edition));
    put_kind(pen, edition, Kind::Bottom);
    put_kind(pen, edition, Kind::Top);
    put_kind(pen, edition, Kind::Star);
}

// Writes the line of the edition's axioms and entities.
fn put_axioms<P: Pen>(pen: &mut P, edition: &Edition)
    ensures { P.writes pen.old pen.new (line_of_axioms edition.now.shown.axioms) }
{
    let axioms = u64::from(edition.axiom_count());
    let entities = u64::from(edition.entity_count());
    put_axioms_line(pen, axioms, carried_count(edition), entities);
}

// Writes the line of the edition's atoms of a kind.
fn put_kind<P: Pen>(pen: &mut P, edition: &Edition, kind: Kind)
    ensures { P.writes pen.old pen.new (line_of_kind kind (shape_in kind edition.now)) }
{
    put_kind_line(
        pen,
        kind,
        atom_count(edition, kind),
        cover_count(edition, kind),
    );
}
