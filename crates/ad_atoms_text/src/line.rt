ghost use Rattle.std.specs.Prelude.{◌≤◌, ◌∷◌, decimal, length};
ghost use Rattle.ad_bits.specs.Rows.{IsLeastFrom};
ghost use Rattle.ad_lines.specs.Lines.{behind};
ghost use Rattle.ad_atoms_text.specs.AtomsText.{atom_line, needs_words};
ghost use Rattle.ad_atoms_text.specs.Numbered.{members, members_from, numbers};

use ad_bits::Row;
use ad_lines::{Decimal, Pen};

/// Writes a number behind a word.
pub fn put_number<P: Pen>(pen: &mut P, number: u32)
    ensures { P.writes pen.old pen.new (32 ∷ decimal number) }
{
    pen.put(b" ");
    pen.put(Decimal::of(u64::from(number)).as_bytes());
}

// Writes the members of the row from this number on, each behind a word.
fn put_members<P: Pen>(pen: &mut P, row: &Row, first: u32)
    requires { first ≤ length row.now }
    ensures { P.writes pen.old pen.new (numbers (members_from first row.now)) }
{
    // the size fits a `u32`, and so does each number up to it
    let _size = row.size();
    let mut from = first;
    while let Some(member) = row.next(from) {
        put_number(pen, member);
        from = member + 1;
    }
}

// Writes the atoms that are covered, of which this is the first, and the line feed.
fn put_covers<P: Pen>(pen: &mut P, covers: &Row, first: u32)
    requires { IsLeastFrom covers.now 0 first }
    ensures { P.writes pen.old pen.new (behind (needs_words (members covers.now))) }
{
    pen.put(b" needs");
    put_members(pen, covers, first);
    pen.put(b"\n");
}

// Writes what an atom needs, and the line feed.
fn put_needs<P: Pen>(pen: &mut P, covers: &Row)
    ensures { P.writes pen.old pen.new (behind (needs_words (members covers.now))) }
{
    match covers.next(0) {
        Some(first) => put_covers(pen, covers, first),
        None => pen.put(b"\n"),
    }
}

/// Writes the line of an atom.
pub fn put_line<P: Pen>(pen: &mut P, atom: u32, size: u32, covers: &Row)
    ensures { P.writes pen.old pen.new (atom_line atom size (members covers.now)) }
{
    pen.put(b"atom");
    put_number(pen, atom);
    pen.put(b" axioms");
    put_number(pen, size);
    put_needs(pen, covers);
}
