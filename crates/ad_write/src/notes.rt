ghost use Rattle.std.specs.Prelude.{map};
ghost use Rattle.ad_write.specs.Canonical.{canon_annotation, canon_value};
ghost use Rattle.ad_write.specs.Arguments.{behind};

use crate::keywords;
use crate::names::write_anonymous;
use crate::spelled::{Spelled, argument, open, separate};
use ad_lines::Pen;
use ad_tree::{Annotation, Value};

// An annotation, with its own annotations before its property and its value.
impl Spelled for Annotation {
    ghost spelling = { canon_annotation };

    fn write<P: Pen>(&self, pen: &mut P) {
        write_annotation(pen, self);
    }
}

// The value of an annotation: an IRI, an anonymous individual or a literal.
impl Spelled for Value {
    ghost spelling = { canon_value };

    fn write<P: Pen>(&self, pen: &mut P) {
        match self {
            Value::Iri(iri) => iri.write(pen),
            Value::Anonymous(label) => write_anonymous(pen, label),
            Value::Literal(literal) => literal.write(pen),
        }
    }
}

// An annotation.
#[cycle(annotation)]
fn write_annotation<P: Pen>(pen: &mut P, note: &Annotation)
    ensures { P.writes pen.old pen.new (canon_annotation note.now) }
{
    let notes = note.notes.as_slice();
    open(pen, keywords::ANNOTATION);
    write_annotations(pen, true, notes);
    argument(pen, notes.is_empty(), &note.property);
    argument(pen, false, &note.value);
    pen.put(b")");
}

/// Annotations as arguments.
#[cycle(annotation)]
pub fn write_annotations<P: Pen>(pen: &mut P, mut first: bool, notes: &[Annotation])
    ensures { P.writes pen.old pen.new (behind first (map canon_annotation notes.now)) }
{
    for note in notes {
        separate(pen, first);
        write_annotation(pen, note);
        first = false;
    }
}
