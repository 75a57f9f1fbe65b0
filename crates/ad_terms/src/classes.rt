ghost use Rattle.std.specs.Prelude.{◌≡◌, IfOk};
ghost use Rattle.ad_terms.specs.Built.{class_of};
ghost use Rattle.ad_terms.specs.Items.{as_number, as_property, as_class};
ghost use Rattle.ad_terms.specs.Shapes.{two, counted, optional, optional_behind};
ghost use Rattle.ad_terms.specs.declared.keyword.ClassWord.TheVariants as classword;

use crate::keyword::{ClassWord, CountWord, FillerWord, JoinWord};
use crate::shapes::{boxed, counted, each, next, one, two};
use crate::stack::Stack;
use ad_base::{Memory, Word};
use ad_tree::{Class, ObjProp, One, Range};
use std::alloc::Global;

/// The class expression of a keyword and its arguments.
pub fn class_of(alloc: Global, word: ClassWord, arguments: Stack) -> Result<Option<Class>, Memory>
    ensures { IfOk result (λ found. found ≡ class_of word arguments) }
{
    match word {
        ClassWord::Join(word) => joined(alloc, word, arguments),
        ClassWord::Complement => complement(alloc, arguments),
        ClassWord::OneOf => one_of(alloc, arguments),
        ClassWord::ObjectFiller(word) => object_filler(alloc, word, arguments),
        ClassWord::ObjectValue => Ok(object_value(arguments)),
        ClassWord::ObjectSelf => Ok(object_self(arguments)),
        ClassWord::ObjectCount(word) => object_count(alloc, word, arguments),
        ClassWord::DataFiller(word) => Ok(data_filler(word, arguments)),
        ClassWord::DataValue => Ok(data_value(arguments)),
        ClassWord::DataCount(word) => Ok(data_count(word, arguments)),
    }
}

// What is in each of these classes, or in any.
fn joined(alloc: Global, word: JoinWord, arguments: Stack) -> Result<Option<Class>, Memory>
    ensures { IfOk result (λ found. found ≡ class_of (classword.Join word) arguments) }
{
    match each(alloc, arguments)? {
        Some(classes) => Ok(Some(match word {
            JoinWord::Intersection => Class::And(classes),
            JoinWord::Union => Class::Or(classes),
        })),
        None => Ok(None),
    }
}

// What is not in a class.
fn complement(alloc: Global, arguments: Stack) -> Result<Option<Class>, Memory>
    ensures { IfOk result (λ found. found ≡ class_of classword.Complement arguments) }
{
    match boxed(alloc, one(arguments))? {
        Some(class) => Ok(Some(Class::Not(class))),
        None => Ok(None),
    }
}

// These individuals.
fn one_of(alloc: Global, arguments: Stack) -> Result<Option<Class>, Memory>
    ensures { IfOk result (λ found. found ≡ class_of classword.OneOf arguments) }
{
    match each(alloc, arguments)? {
        Some(individuals) => Ok(Some(Class::OneOf(individuals))),
        None => Ok(None),
    }
}

// What an object property leads from to a filler.
fn object_filler(alloc: Global, word: FillerWord, arguments: Stack) -> Result<Option<Class>, Memory>
    ensures { IfOk result (λ found. found ≡ class_of (classword.ObjectFiller word) arguments) }
{
    match filled(alloc, arguments)? {
        Some((property, filler)) => Ok(Some(match word {
            FillerWord::Some => Class::ObjSome(property, filler),
            FillerWord::All => Class::ObjAll(property, filler),
        })),
        None => Ok(None),
    }
}

// What an object property leads from to an individual.
fn object_value(arguments: Stack) -> Option<Class>
    ensures { result ≡ class_of classword.ObjectValue arguments }
{
    let (property, individual) = two(arguments)?;
    Some(Class::ObjValue(property, individual))
}

// What an object property leads from to itself.
fn object_self(arguments: Stack) -> Option<Class>
    ensures { result ≡ class_of classword.ObjectSelf arguments }
{
    let property = one(arguments)?;
    Some(Class::ObjSelf(property))
}

// What an object property leads from to so many of a filler.
fn object_count(alloc: Global, word: CountWord, arguments: Stack) -> Result<Option<Class>, Memory>
    ensures { IfOk result (λ found. found ≡ class_of (classword.ObjectCount word) arguments) }
{
    match counted_filled(alloc, arguments)? {
        Some((n, (property, filler))) => Ok(Some(match word {
            CountWord::Min => Class::ObjMin(n, property, filler),
            CountWord::Max => Class::ObjMax(n, property, filler),
            CountWord::Exact => Class::ObjExact(n, property, filler),
        })),
        None => Ok(None),
    }
}

// What a data property leads from to a data range.
fn data_filler(word: FillerWord, arguments: Stack) -> Option<Class>
    ensures { result ≡ class_of (classword.DataFiller word) arguments }
{
    let (property, range): (Word, Range) = two(arguments)?;
    Some(match word {
        FillerWord::Some => Class::DataSome(property, range),
        FillerWord::All => Class::DataAll(property, range),
    })
}

// What a data property leads from to a literal.
fn data_value(arguments: Stack) -> Option<Class>
    ensures { result ≡ class_of classword.DataValue arguments }
{
    let (property, value) = two(arguments)?;
    Some(Class::DataValue(property, value))
}

// What a data property leads from to so many of a data range.
fn data_count(word: CountWord, arguments: Stack) -> Option<Class>
    ensures { result ≡ class_of (classword.DataCount word) arguments }
{
    let (n, (property, range)): (u32, (Word, Option<Range>)) = counted(arguments)?;
    Some(match word {
        CountWord::Min => Class::DataMin(n, property, range),
        CountWord::Max => Class::DataMax(n, property, range),
        CountWord::Exact => Class::DataExact(n, property, range),
    })
}

// A property and its filler.
fn filled(alloc: Global, mut arguments: Stack) -> Result<Option<(ObjProp, One<Class>)>, Memory>
    ensures { IfOk result (λ found. found ≡ two as_property as_class arguments) }
{
    let property: Option<ObjProp> = next(&mut arguments);
    let filler: Option<One<Class>> = boxed(alloc, one(arguments))?;
    Ok(property.zip(filler))
}

// A number, a property, and its filler, which may be absent.
fn counted_filled(
    alloc: Global,
    mut arguments: Stack,
) -> Result<Option<(u32, (ObjProp, Option<One<Class>>))>, Memory>
    ensures { IfOk result (λ found. found ≡ counted as_number as_property as_class arguments) }
{
    let n: Option<u32> = next(&mut arguments);
    let filled = optionally_filled(alloc, arguments)?;
    Ok(n.zip(filled))
}

// A property and its filler, which may be absent.
fn optionally_filled(
    alloc: Global,
    mut arguments: Stack,
) -> Result<Option<(ObjProp, Option<One<Class>>)>, Memory>
    ensures { IfOk result (λ found. found ≡ optional_behind as_property as_class arguments) }
{
    let property: Option<ObjProp> = next(&mut arguments);
    let filler = optional_filler(alloc, arguments)?;
    Ok(property.zip(filler))
}

// A filler, which may be absent.
fn optional_filler(alloc: Global, arguments: Stack) -> Result<Option<Option<One<Class>>>, Memory>
    ensures { IfOk result (λ found. found ≡ optional as_class arguments) }
{
    if arguments.is_empty() {
        return Ok(Some(None));
    }
    let filler: Option<One<Class>> = boxed(alloc, one(arguments))?;
    Ok(filler.map(|filler| Some(filler)))
}
