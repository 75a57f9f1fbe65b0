//! The reply that tells an edition's counts.
ghost use Rattle.std.specs.Prelude.{◌≡◌, ◌++◌, decimal, length};
ghost use Rattle.ad_io.specs.Sink.{Puts, PutCause};
ghost use Rattle.ad_reply.specs.Bodies.{IsStatBody};
ghost use Rattle.ad_reply.specs.Stats.{atoms_line, axioms_line, stat_in, stat_lines, tautologies_line};
ghost use Rattle.ad_reply.specs.Written.{PutsAnswer};

use crate::answers::put_answer_line;
use ad_base::Kind;
use ad_edition::Edition;
use ad_io::{Sink, Wrote};
use ad_lines::{Decimal, Inked, Pen, Scale};
use ad_ontology_atoms::shapes_of_slots;

// The counts of an edition.
#[derive(Clone, Copy)]
pub(crate) struct Stat {
    axioms: u64,
    carried: u64,
    entities: u64,
    bytes: u64,
    tautologies: u64,
    bottom: u64,
    top: u64,
    star: u64,
}

/// Writes the edition's counts: of its axioms, entities and bytes, of its tautologies, and of its atoms of each kind. It
/// takes no memory.
pub fn stat_reply<K: Sink>(edition: &Edition, sink: &mut K) -> Wrote
    ensures reply { PutsAnswer (IsStatBody edition.now.shown.axioms) edition.now.shown.number (K.written sink.old) (K.written sink.new) result }
    ensures cause { PutCause (K.faults sink.old) (K.faults sink.new) result }
{
    edition.laws();
    shapes_of_slots();
    let stat = stat_of(edition);
    match put_answer_line(edition.number(), stat_bytes(stat), sink) {
        Wrote::All => put_stat(stat, sink),
        Wrote::Failed => Wrote::Failed,
    }
}

// The counts of the edition.
fn stat_of(edition: &Edition) -> Stat
    ensures { result ≡ stat_in edition.now }
{
    let bottom = edition.atoms(Kind::Bottom);
    Stat {
        axioms: u64::from(edition.axiom_count()),
        carried: u64::from(edition.carried_count()),
        entities: u64::from(edition.entity_count()),
        bytes: edition.bytes(),
        tautologies: u64::from(bottom.tautologies()),
        bottom: u64::from(bottom.count()),
        top: u64::from(edition.atoms(Kind::Top).count()),
        star: u64::from(edition.atoms(Kind::Star).count()),
    }
}

// How many bytes the text of the counts has.
fn stat_bytes(stat: Stat) -> u64
    ensures { result ≡ length (stat_lines stat) }
{
    let mut scale = Scale::new();
    put_text(&mut scale, stat);
    scale.bytes()
}

// Writes the text of the counts.
fn put_stat<K: Sink>(stat: Stat, sink: &mut K) -> Wrote
    ensures bytes { Puts (K.written sink.old) (K.written sink.new) result (stat_lines stat) }
    ensures cause { PutCause (K.faults sink.old) (K.faults sink.new) result }
{
    let mut pen = Inked::over(sink);
    put_text(&mut pen, stat);
    pen.end()
}

// Writes the text of the counts with any pen.
fn put_text<P: Pen>(pen: &mut P, stat: Stat)
    ensures { P.writes pen.old pen.new (stat_lines stat) }
{
    put_axiom_counts(pen, stat);
    put_tautologies(pen, stat);
    put_atom_counts(pen, stat);
}

// Writes the line of the counts of axioms, entities and bytes.
fn put_axiom_counts<P: Pen>(pen: &mut P, stat: Stat)
    ensures { P.writes pen.old pen.new (axioms_line stat) }
{
    put_count(pen, b"axioms ", stat.axioms);
    put_count(pen, b" carried ", stat.carried);
    put_count(pen, b" entities ", stat.entities);
    put_count(pen, b" bytes ", stat.bytes);
    pen.put(b"\n");
}

// Writes the line of the count of tautologies.
fn put_tautologies<P: Pen>(pen: &mut P, stat: Stat)
    ensures { P.writes pen.old pen.new (tautologies_line stat) }
{
    put_count(pen, b"tautologies ", stat.tautologies);
    pen.put(b"\n");
}

// Writes the line of the counts of atoms.
fn put_atom_counts<P: Pen>(pen: &mut P, stat: Stat)
    ensures { P.writes pen.old pen.new (atoms_line stat) }
{
    put_count(pen, b"atoms bottom ", stat.bottom);
    put_count(pen, b" top ", stat.top);
    put_count(pen, b" star ", stat.star);
    pen.put(b"\n");
}

// Writes words, and a number behind them.
fn put_count<P: Pen>(pen: &mut P, words: &[u8], count: u64)
    ensures { P.writes pen.old pen.new (words.now ++ decimal count) }
{
    pen.put(words);
    pen.put(Decimal::of(count).as_bytes());
}
