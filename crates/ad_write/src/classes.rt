ghost use Rattle.std.specs.Prelude.{false, ◌∷◌, [], map, decimal};
ghost use Rattle.std.specs.Option.{option_map, option_to_list};
ghost use Rattle.ad_write.specs.Canonical.{canon_class, canon_iri, canon_optional, canon_property, compound};
ghost use Rattle.ad_write.specs.Arguments.{behind};

use crate::keywords;
use crate::shapes::{begin, list, one, three, two};
use crate::spelled::{Spelled, argument, separate};
use ad_base::Word;
use ad_lines::Pen;
use ad_tree::{Class, Classes, ObjProp, One, Range};

// A class expression.
impl Spelled for Class {
    ghost spelling = { canon_class };

    fn write<P: Pen>(&self, pen: &mut P) {
        write_class(pen, self);
    }
}

// A class expression: for each kind its keyword and its arguments.
#[cycle(class)]
#[rattlefmt::skip]
fn write_class<P: Pen>(pen: &mut P, class: &Class)
    ensures { P.writes pen.old pen.new (canon_class class.now) }
{
    match class {
        Class::Named(name) => name.write(pen),
        Class::And(operands) => all_classes(pen, keywords::OBJECT_INTERSECTION_OF, operands),
        Class::Or(operands) => all_classes(pen, keywords::OBJECT_UNION_OF, operands),
        Class::Not(operand) => one_class(pen, keywords::OBJECT_COMPLEMENT_OF, operand),
        Class::OneOf(members) => list(pen, keywords::OBJECT_ONE_OF, &[], members),
        Class::ObjSome(property, filler) => filled(pen, keywords::OBJECT_SOME_VALUES_FROM, property, filler),
        Class::ObjAll(property, filler) => filled(pen, keywords::OBJECT_ALL_VALUES_FROM, property, filler),
        Class::ObjValue(property, individual) => two(pen, keywords::OBJECT_HAS_VALUE, &[], property, individual),
        Class::ObjSelf(property) => one(pen, keywords::OBJECT_HAS_SELF, &[], property),
        Class::ObjMin(number, property, filler) => counted(pen, keywords::OBJECT_MIN_CARDINALITY, number, property, filler),
        Class::ObjMax(number, property, filler) => counted(pen, keywords::OBJECT_MAX_CARDINALITY, number, property, filler),
        Class::ObjExact(number, property, filler) => counted(pen, keywords::OBJECT_EXACT_CARDINALITY, number, property, filler),
        Class::DataSome(property, range) => two(pen, keywords::DATA_SOME_VALUES_FROM, &[], property, range),
        Class::DataAll(property, range) => two(pen, keywords::DATA_ALL_VALUES_FROM, &[], property, range),
        Class::DataValue(property, value) => two(pen, keywords::DATA_HAS_VALUE, &[], property, value),
        Class::DataMin(number, property, range) => counted_data(pen, keywords::DATA_MIN_CARDINALITY, number, property, range),
        Class::DataMax(number, property, range) => counted_data(pen, keywords::DATA_MAX_CARDINALITY, number, property, range),
        Class::DataExact(number, property, range) => counted_data(pen, keywords::DATA_EXACT_CARDINALITY, number, property, range),
    }
}

// A keyword with one class expression.
#[cycle(class)]
fn one_class<P: Pen>(pen: &mut P, word: &str, operand: &One<Class>)
    ensures { P.writes pen.old pen.new (compound word.now (canon_class operand.now ∷ [])) }
{
    begin(pen, word, &[]);
    write_class(pen, operand.get());
    pen.put(b")");
}

// A keyword with a list of class expressions.
#[cycle(class)]
fn all_classes<P: Pen>(pen: &mut P, word: &str, operands: &Classes)
    ensures { P.writes pen.old pen.new (compound word.now (map canon_class operands.now)) }
{
    let first = begin(pen, word, &[]);
    write_classes(pen, first, operands.as_slice());
    pen.put(b")");
}

// Class expressions as arguments.
#[cycle(class)]
fn write_classes<P: Pen>(pen: &mut P, mut first: bool, classes: &[Class])
    ensures { P.writes pen.old pen.new (behind first (map canon_class classes.now)) }
{
    for class in classes {
        separate(pen, first);
        write_class(pen, class);
        first = false;
    }
}

// A keyword with an object property and the class of its values.
#[cycle(class)]
fn filled<P: Pen>(pen: &mut P, word: &str, property: &ObjProp, filler: &One<Class>)
    ensures { P.writes pen.old pen.new (compound word.now (canon_property property.now ∷ canon_class filler.now ∷ [])) }
{
    let first = begin(pen, word, &[]);
    argument(pen, first, property);
    separate(pen, false);
    write_class(pen, filler.get());
    pen.put(b")");
}

// A keyword with a number, an object property and, where it is given, the class of the values that count.
#[cycle(class)]
fn counted<P: Pen>(
    pen: &mut P,
    word: &str,
    number: &u32,
    property: &ObjProp,
    filler: &Option<One<Class>>,
)
    ensures { P.writes pen.old pen.new (compound word.now (decimal number.now ∷ canon_property property.now ∷ option_to_list (option_map canon_class filler.now))) }
{
    let first = begin(pen, word, &[]);
    argument(pen, first, number);
    argument(pen, false, property);
    write_filler(pen, filler);
    pen.put(b")");
}

// The class expression of a number restriction as an argument, where it is given.
#[cycle(class)]
fn write_filler<P: Pen>(pen: &mut P, filler: &Option<One<Class>>)
    ensures { P.writes pen.old pen.new (behind false (option_to_list (option_map canon_class filler.now))) }
{
    match filler {
        Some(class) => {
            separate(pen, false);
            write_class(pen, class.get());
        }
        None => {}
    }
}

// A keyword with a number, a data property and, where it is given, the data range of the values that count.
fn counted_data<P: Pen>(
    pen: &mut P,
    word: &str,
    number: &u32,
    property: &Word,
    range: &Option<Range>,
)
    ensures { P.writes pen.old pen.new (compound word.now (decimal number.now ∷ canon_iri property.now ∷ canon_optional range.now)) }
{
    match range {
        Some(range) => three(pen, word, &[], number, property, range),
        None => two(pen, word, &[], number, property),
    }
}
