ghost use Rattle.std.specs.Prelude.{◌≡◌, ◌-◌, ◌^◌, ℕ, Bool, List, length, min, slice_index};
ghost use Rattle.ad_io.specs.Sink.{Puts, PutCause};
ghost use Rattle.ad_decomposition.specs.Atoms.{AreAtoms, AreCovers};
ghost use Rattle.ad_shapes.specs.Shapes.{shape_of};
ghost use Rattle.ad_atoms_text.specs.AtomsText.{atoms_text, head_line};
ghost use Rattle.ad_atoms_text.specs.Numbered.{lines_of, listing};

use crate::line::{put_line, put_number};
use ad_depend::Covers;
use ad_io::{Sink, Wrote};
use ad_lines::{Inked, Pen, Scale};
use ad_tables::Atoms;

/// How many bytes the text that lists the atoms has, or the greatest number where they are more. It takes no memory.
pub fn atoms_size(atoms: &Atoms, covers: &Covers) -> u64
    requires { length covers.now.rows ≡ length atoms.now.firsts }
    ensures { (G : ℕ → ℕ → Bool) (order : List ℕ) → AreAtoms G order atoms.now → AreCovers G order covers.now.rows →
        result ≡ min (length (atoms_text (shape_of G order))) (2 ^ 64 - 1) }
{
    let mut scale = Scale::new();
    put_text(&mut scale, atoms, covers);
    scale.bytes()
}

/// Writes the text that lists the atoms, with their covers. It takes no memory.
pub fn write_atoms<K: Sink>(atoms: &Atoms, covers: &Covers, sink: &mut K) -> Wrote
    requires { length covers.now.rows ≡ length atoms.now.firsts }
    ensures bytes { (G : ℕ → ℕ → Bool) (order : List ℕ) → AreAtoms G order atoms.now → AreCovers G order covers.now.rows →
        Puts (K.written sink.old) (K.written sink.new) result (atoms_text (shape_of G order)) }
    ensures cause { PutCause (K.faults sink.old) (K.faults sink.new) result }
{
    write_listing(atoms, covers, sink)
}

// Writes the text.
fn write_listing<K: Sink>(atoms: &Atoms, covers: &Covers, sink: &mut K) -> Wrote
    requires { length covers.now.rows ≡ length atoms.now.firsts }
    ensures bytes { Puts (K.written sink.old) (K.written sink.new) result (listing atoms.now covers.now) }
    ensures cause { PutCause (K.faults sink.old) (K.faults sink.new) result }
{
    let mut pen = Inked::over(sink);
    put_text(&mut pen, atoms, covers);
    pen.end()
}

// Writes the text with any pen.
fn put_text<P: Pen>(pen: &mut P, atoms: &Atoms, covers: &Covers)
    requires { length covers.now.rows ≡ length atoms.now.firsts }
    ensures { P.writes pen.old pen.new (listing atoms.now covers.now) }
{
    put_head(pen, atoms.count(), atoms.tautologies());
    put_lines(pen, atoms, covers);
}

// Writes the first line: how many atoms and tautologies there are.
fn put_head<P: Pen>(pen: &mut P, count: u32, tautologies: u32)
    ensures { P.writes pen.old pen.new (head_line count tautologies) }
{
    pen.put(b"atoms");
    put_number(pen, count);
    pen.put(b" tautologies");
    put_number(pen, tautologies);
    pen.put(b"\n");
}

// Writes the line of each atom.
fn put_lines<P: Pen>(pen: &mut P, atoms: &Atoms, covers: &Covers)
    requires { length covers.now.rows ≡ length atoms.now.firsts }
    ensures { P.writes pen.old pen.new (lines_of (slice_index atoms.now.sizes) 0 covers.now.rows) }
{
    for atom in 0..atoms.count() {
        put_line(pen, atom, atoms.size_of(atom), covers.row(atom));
    }
}
