//! The lines of a summary, written with any pen.
ghost use Rattle.std.specs.Prelude.{◌≡◌, ◌++◌, decimal};
ghost use Rattle.ad_base.specs.Kinds.{kind_word};
ghost use Rattle.ad_summary.specs.Lines.{axioms_line, kind_line, tautologies_line};

use ad_base::Kind;
use ad_lines::{Decimal, Pen};

// Writes the line of the counts of axioms and entities.
pub(crate) fn put_axioms_line<P: Pen>(pen: &mut P, axioms: u64, carried: u64, entities: u64)
    ensures { P.writes pen.old pen.new (axioms_line axioms carried entities) }
{
    put_count(pen, b"axioms ", axioms);
    put_count(pen, b" carried ", carried);
    put_count(pen, b" entities ", entities);
    pen.put(b"\n");
}

// Writes the line of the count of tautologies.
pub(crate) fn put_tautologies_line<P: Pen>(pen: &mut P, tautologies: u64)
    ensures { P.writes pen.old pen.new (tautologies_line tautologies) }
{
    put_count(pen, b"tautologies ", tautologies);
    pen.put(b"\n");
}

// Writes the line of the atoms and covers of a kind.
pub(crate) fn put_kind_line<P: Pen>(pen: &mut P, kind: Kind, atoms: u64, covers: u64)
    ensures { P.writes pen.old pen.new (kind_line kind atoms covers) }
{
    pen.put(word_of(kind));
    put_count(pen, b" atoms ", atoms);
    put_count(pen, b" covers ", covers);
    pen.put(b"\n");
}

// Writes words, and a number behind them.
fn put_count<P: Pen>(pen: &mut P, words: &[u8], count: u64)
    ensures { P.writes pen.old pen.new (words.now ++ decimal count) }
{
    pen.put(words);
    pen.put(Decimal::of(count).as_bytes());
}

// The word of a kind.
fn word_of(kind: Kind) -> &'static [u8]
    ensures { result.now ≡ kind_word kind }
{
    match kind {
        Kind::Bottom => b"bottom",
        Kind::Top => b"top",
        Kind::Star => b"star",
    }
}
