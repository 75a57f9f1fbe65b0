ghost use Rattle.std.specs.Prelude.{◌∷◌, [], map};
ghost use Rattle.ad_write.specs.Canonical.{canon_range, compound};
ghost use Rattle.ad_write.specs.Arguments.{behind};

use crate::keywords;
use crate::shapes::{begin, list, one_and_list};
use crate::spelled::{Spelled, separate};
use ad_lines::Pen;
use ad_tree::{One, Range, Ranges};

// A data range.
impl Spelled for Range {
    ghost spelling = { canon_range };

    fn write<P: Pen>(&self, pen: &mut P) {
        write_range(pen, self);
    }
}

// A data range: for each kind its keyword and its arguments.
#[cycle(range)]
#[rattlefmt::skip]
fn write_range<P: Pen>(pen: &mut P, range: &Range)
    ensures { P.writes pen.old pen.new (canon_range range.now) }
{
    match range {
        Range::Named(datatype) => datatype.write(pen),
        Range::And(operands) => all_ranges(pen, keywords::DATA_INTERSECTION_OF, operands),
        Range::Or(operands) => all_ranges(pen, keywords::DATA_UNION_OF, operands),
        Range::Not(operand) => one_range(pen, keywords::DATA_COMPLEMENT_OF, operand),
        Range::OneOf(values) => list(pen, keywords::DATA_ONE_OF, &[], values),
        Range::Restriction(datatype, facets) => one_and_list(pen, keywords::DATATYPE_RESTRICTION, &[], datatype, facets),
    }
}

// A keyword with one data range.
#[cycle(range)]
fn one_range<P: Pen>(pen: &mut P, word: &str, operand: &One<Range>)
    ensures { P.writes pen.old pen.new (compound word.now (canon_range operand.now ∷ [])) }
{
    begin(pen, word, &[]);
    write_range(pen, operand.get());
    pen.put(b")");
}

// A keyword with a list of data ranges.
#[cycle(range)]
fn all_ranges<P: Pen>(pen: &mut P, word: &str, operands: &Ranges)
    ensures { P.writes pen.old pen.new (compound word.now (map canon_range operands.now)) }
{
    let first = begin(pen, word, &[]);
    write_ranges(pen, first, operands.as_slice());
    pen.put(b")");
}

// Data ranges as arguments.
#[cycle(range)]
fn write_ranges<P: Pen>(pen: &mut P, mut first: bool, ranges: &[Range])
    ensures { P.writes pen.old pen.new (behind first (map canon_range ranges.now)) }
{
    for range in ranges {
        separate(pen, first);
        write_range(pen, range);
        first = false;
    }
}
