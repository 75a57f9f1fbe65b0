ghost use Rattle.std.specs.Prelude.{ℕ, List, ◌∷◌, ◌++◌, [], map, codes, decimal};
ghost use Rattle.ad_write.specs.Canonical.{canon_iri};
ghost use Rattle.ad_write.specs.Arguments.{behind, gap};

use ad_base::{Word, digits};
use ad_lines::Pen;

/// What has one canonical text, whoever contains it.
pub trait Spelled {
    // its canonical text
    ghost spelling: { Self → List ℕ };

    /// Writes the canonical text.
    fn write<P: Pen>(&self, pen: &mut P)
        ensures { P.writes pen.old pen.new (spelling self.now) };
}

// A word as a name is an IRI in full.
impl Spelled for Word {
    ghost spelling = { canon_iri };

    fn write<P: Pen>(&self, pen: &mut P) {
        pen.put(b"<");
        pen.put(self.as_bytes());
        pen.put(b">");
    }
}

// A number is written in decimal, without leading zeros.
impl Spelled for u32 {
    ghost spelling = { decimal };

    fn write<P: Pen>(&self, pen: &mut P) {
        let mut out = [0; 20];
        let count = digits(u64::from(*self), &mut out);
        pen.put(&out[..usize::from(count)]);
    }
}

/// A keyword, and the parenthesis behind it.
pub fn open<P: Pen>(pen: &mut P, word: &str)
    ensures { P.writes pen.old pen.new (word.now ++ codes "(") }
{
    pen.put(word.as_bytes());
    pen.put(b"(");
}

/// What stands before an argument: a space, unless it is the first.
pub fn separate<P: Pen>(pen: &mut P, first: bool)
    ensures { P.writes pen.old pen.new (gap first) }
{
    if !first {
        pen.put(b" ");
    }
}

/// An argument behind others, with a space before it unless it is the first.
pub fn argument<P: Pen, T: Spelled>(pen: &mut P, first: bool, item: &T)
    ensures { P.writes pen.old pen.new (behind first (T.spelling item.now ∷ [])) }
{
    separate(pen, first);
    item.write(pen);
}

/// Arguments behind others, with a space before each but for the first of all.
pub fn arguments<P: Pen, T: Spelled>(pen: &mut P, mut first: bool, items: &[T])
    ensures { P.writes pen.old pen.new (behind first (map T.spelling items.now)) }
{
    for item in items {
        argument(pen, first, item);
        first = false;
    }
}
