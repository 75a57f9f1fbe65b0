ghost use Rattle.std.specs.Prelude.{◌≡◌, ◌++◌, ◌∷◌, [], map};
ghost use Rattle.ad_write.specs.Canonical.{canon_annotation, compound};
ghost use Rattle.ad_write.specs.Arguments.{is_empty, opened};

use crate::notes::write_annotations;
use crate::spelled::{Spelled, argument, arguments, open};
use ad_lines::Pen;
use ad_tree::{Annotation, Many};

/// A keyword, the parenthesis and the annotations, and whether there were none.
pub fn begin<P: Pen>(pen: &mut P, word: &str, notes: &[Annotation]) -> bool
    ensures written { P.writes pen.old pen.new (opened word.now (map canon_annotation notes.now)) }
    ensures first { result ≡ is_empty (map canon_annotation notes.now) }
{
    open(pen, word);
    write_annotations(pen, true, notes);
    notes.is_empty()
}

/// A keyword with one argument.
pub fn one<P: Pen, A: Spelled>(pen: &mut P, word: &str, notes: &[Annotation], a: &A)
    ensures { P.writes pen.old pen.new (compound word.now (map canon_annotation notes.now ++ A.spelling a.now ∷ [])) }
{
    let first = begin(pen, word, notes);
    argument(pen, first, a);
    pen.put(b")");
}

/// A keyword with two arguments.
pub fn two<P: Pen, A: Spelled, B: Spelled>(
    pen: &mut P,
    word: &str,
    notes: &[Annotation],
    a: &A,
    b: &B,
)
    ensures { P.writes pen.old pen.new (compound word.now (map canon_annotation notes.now ++ A.spelling a.now ∷ B.spelling b.now ∷ [])) }
{
    let first = begin(pen, word, notes);
    argument(pen, first, a);
    argument(pen, false, b);
    pen.put(b")");
}

/// A keyword with three arguments.
pub fn three<P: Pen, A: Spelled, B: Spelled, C: Spelled>(
    pen: &mut P,
    word: &str,
    notes: &[Annotation],
    a: &A,
    b: &B,
    c: &C,
)
    ensures { P.writes pen.old pen.new (compound word.now (map canon_annotation notes.now ++ A.spelling a.now ∷ B.spelling b.now ∷ C.spelling c.now ∷ [])) }
{
    let first = begin(pen, word, notes);
    argument(pen, first, a);
    argument(pen, false, b);
    argument(pen, false, c);
    pen.put(b")");
}

/// A keyword with a list of arguments.
pub fn list<P: Pen, A: Spelled>(pen: &mut P, word: &str, notes: &[Annotation], items: &Many<A>)
    ensures { P.writes pen.old pen.new (compound word.now (map canon_annotation notes.now ++ map A.spelling items.now)) }
{
    let first = begin(pen, word, notes);
    arguments(pen, first, items.as_slice());
    pen.put(b")");
}

/// A keyword with one argument and a list of further ones.
pub fn one_and_list<P: Pen, A: Spelled, B: Spelled>(
    pen: &mut P,
    word: &str,
    notes: &[Annotation],
    a: &A,
    items: &Many<B>,
)
    ensures { P.writes pen.old pen.new (compound word.now (map canon_annotation notes.now ++ A.spelling a.now ∷ map B.spelling items.now)) }
{
    let first = begin(pen, word, notes);
    argument(pen, first, a);
    arguments(pen, false, items.as_slice());
    pen.put(b")");
}

/// A list that is one argument: its keyword, which may be empty, and its members between parentheses.
#[derive(Drop)]
pub struct Group<'a, T> {
    pub word: &'a str,
    pub members: &'a Many<T>,
}

impl<'a, T: Spelled> Spelled for Group<'a, T> {
    ghost spelling = { λ group. compound group.word.now (map T.spelling group.members.now) };

    fn write<P: Pen>(&self, pen: &mut P) {
        list(pen, self.word, &[], self.members);
    }
}
