ghost use Rattle.std.specs.Prelude.{◌≡◌, ◌++◌, ◌∷◌, [], ◌<◌, take, drop, length, IfSome, IfNone};
ghost use Rattle.ad_write.specs.Canonical.{canon_literal, canon_facet, escaped, quoted};

use crate::spelled::Spelled;
use ad_lines::Pen;
use ad_tree::{Facet, Literal};
use memchr::memchr2;

// A literal is its quoted text, with its language tag or the IRI of its datatype.
impl Spelled for Literal {
    ghost spelling = { canon_literal };

    fn write<P: Pen>(&self, pen: &mut P) {
        match self {
            Literal::Plain(text) => write_quoted(pen, text.as_bytes()),
            Literal::Lang(text, tag) => {
                write_quoted(pen, text.as_bytes());
                pen.put(b"@");
                pen.put(tag.as_bytes());
            }
            Literal::Typed(text, datatype) => {
                write_quoted(pen, text.as_bytes());
                pen.put(b"^^");
                datatype.write(pen);
            }
        }
    }
}

// A facet is its IRI and, behind a space, its value.
impl Spelled for Facet {
    ghost spelling = { canon_facet };

    fn write<P: Pen>(&self, pen: &mut P) {
        self.facet.write(pen);
        pen.put(b" ");
        self.value.write(pen);
    }
}

// A text between quotation marks.
fn write_quoted<P: Pen>(pen: &mut P, text: &[u8])
    ensures { P.writes pen.old pen.new (quoted text.now) }
{
    pen.put(b"\"");
    write_escaped(pen, text);
    pen.put(b"\"");
}

// A text in which each quotation mark and each backslash stands behind a backslash.
fn write_escaped<P: Pen>(pen: &mut P, text: &[u8])
    ensures { P.writes pen.old pen.new (escaped text.now) }
{
    let mut rest = text;
    'runs: while let Some(at) = first_escaped(rest) {
        let (run, behind) = rest.split_at(at);
        let (byte, later) = behind.split_at(1);
        pen.put(run);
        pen.put(b"\\");
        pen.put(byte);
        rest = later;
    }
    pen.put(rest);
}

// Where the first byte stands that needs a backslash.
fn first_escaped(text: &[u8]) -> Option<usize>
    ensures found { IfSome result (λ at. (at < length text.now) × (escaped text.now ≡ ((take at text.now ++ (92 ∷ [])) ++ take 1 (drop at text.now)) ++ escaped (drop 1 (drop at text.now)))) }
    ensures none { IfNone result (escaped text.now ≡ text.now) }
{
    memchr2(b'"', b'\\', text)
}
