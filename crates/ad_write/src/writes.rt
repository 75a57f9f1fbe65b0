ghost use Rattle.std.specs.Prelude.{◌≡◌, ◌+◌, ◌-◌, ◌^◌, List, [], ◌∷◌, ◌++◌, length, map, min};
ghost use Rattle.ad_io.specs.Sink.{Puts, PutCause};
ghost use Rattle.ad_tree.specs.declared.axioms.Noted.{Noted};
ghost use Rattle.ad_write.specs.Canonical.{canon, canon_line, canon_document, document_foot, document_head};

use crate::axioms::{write_ended, write_noted};
use crate::keywords;
use crate::spelled::open;
use ad_io::{Sink, Wrote};
use ad_lines::{Inked, Pen, Scale};
use ad_tree::{Lent, Noted};

/// How many bytes the document without axioms has.
pub const EMPTY_DOCUMENT: u64 = 12;

/// Writes the canonical text of an axiom with its annotations, without a line's end. It takes no memory.
pub fn write_to<K: Sink>(noted: &Noted, sink: &mut K) -> Wrote
    ensures bytes { Puts (K.written sink.old) (K.written sink.new) result (canon noted.now) }
    ensures cause { PutCause (K.faults sink.old) (K.faults sink.new) result }
{
    let mut pen = Inked::over(sink);
    write_noted(&mut pen, noted);
    pen.end()
}

/// Writes the same with the line's end, as it stands in a document. It takes no memory.
pub fn write_line<K: Sink>(noted: &Noted, sink: &mut K) -> Wrote
    ensures bytes { Puts (K.written sink.old) (K.written sink.new) result (canon_line noted.now) }
    ensures cause { PutCause (K.faults sink.old) (K.faults sink.new) result }
{
    let mut pen = Inked::over(sink);
    write_ended(&mut pen, noted);
    pen.end()
}

/// Writes what stands before a document's axioms.
pub fn write_head<K: Sink>(sink: &mut K) -> Wrote
    ensures bytes { Puts (K.written sink.old) (K.written sink.new) result document_head }
    ensures cause { PutCause (K.faults sink.old) (K.faults sink.new) result }
{
    let mut pen = Inked::over(sink);
    put_head(&mut pen);
    pen.end()
}

/// Writes what stands behind a document's axioms.
pub fn write_foot<K: Sink>(sink: &mut K) -> Wrote
    ensures bytes { Puts (K.written sink.old) (K.written sink.new) result document_foot }
    ensures cause { PutCause (K.faults sink.old) (K.faults sink.new) result }
{
    let mut pen = Inked::over(sink);
    put_foot(&mut pen);
    pen.end()
}

/// Writes the document of these axioms. It takes no memory.
pub fn write_document<A: Lent, K: Sink>(axioms: &[A], sink: &mut K) -> Wrote
    ensures bytes { Puts (K.written sink.old) (K.written sink.new) result (canon_document (map A.lent axioms.now)) }
    ensures cause { PutCause (K.faults sink.old) (K.faults sink.new) result }
{
    let mut pen = Inked::over(sink);
    write_all(&mut pen, axioms);
    pen.end()
}

/// How many bytes the canonical text of an axiom has, without a line's end, or the greatest number where they are
/// more. It takes no memory.
pub fn size(noted: &Noted) -> u64
    ensures { result ≡ min (length (canon noted.now)) (2 ^ 64 - 1) }
{
    let mut scale = Scale::new();
    write_noted(&mut scale, noted);
    scale.bytes()
}

/// A document without axioms has 12 bytes, and each axiom, wherever it stands, adds its text and one byte.
pub fn document_length()
    ensures empty { length (canon_document []) ≡ EMPTY_DOCUMENT }
    ensures each { (before after : List Noted) (noted : Noted) → length (canon_document (before ++ noted ∷ after)) ≡ length (canon_document (before ++ after)) + length (canon noted) + 1 }
{}

// The document of these axioms, with any pen.
fn write_all<A: Lent, P: Pen>(pen: &mut P, axioms: &[A])
    ensures { P.writes pen.old pen.new (canon_document (map A.lent axioms.now)) }
{
    put_head(pen);
    for each in axioms {
        write_ended(pen, each.noted());
    }
    put_foot(pen);
}

// What stands before a document's axioms, with any pen.
fn put_head<P: Pen>(pen: &mut P)
    ensures { P.writes pen.old pen.new document_head }
{
    open(pen, keywords::ONTOLOGY);
    pen.put(b"\n");
}

// What stands behind a document's axioms, with any pen.
fn put_foot<P: Pen>(pen: &mut P)
    ensures { P.writes pen.old pen.new document_foot }
{
    pen.put(b")\n");
}
