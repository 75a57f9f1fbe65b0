ghost use Rattle.std.specs.Prelude.{◌≡◌, IfOk};
ghost use Rattle.ad_terms.specs.Built.{range_of, restriction, facets, facet};
ghost use Rattle.ad_terms.specs.Shapes.{behind_top};
ghost use Rattle.ad_terms.specs.declared.keyword.RangeWord.TheVariants as rangeword;

use crate::keyword::{JoinWord, RangeWord};
use crate::shapes::{boxed, each, next, next_two, one};
use crate::stack::Stack;
use ad_base::{Memory, Word};
use ad_tree::{Facet, Facets, Literal, Many, Range};
use std::alloc::Global;

/// The data range of a keyword and its arguments.
pub fn range_of(alloc: Global, word: RangeWord, arguments: Stack) -> Result<Option<Range>, Memory>
    ensures { IfOk result (λ found. found ≡ range_of word arguments) }
{
    match word {
        RangeWord::Join(word) => joined(alloc, word, arguments),
        RangeWord::Complement => complement(alloc, arguments),
        RangeWord::OneOf => one_of(alloc, arguments),
        RangeWord::Restriction => restriction(alloc, arguments),
    }
}

// What is in each of these data ranges, or in any.
fn joined(alloc: Global, word: JoinWord, arguments: Stack) -> Result<Option<Range>, Memory>
    ensures { IfOk result (λ found. found ≡ range_of (rangeword.Join word) arguments) }
{
    match each(alloc, arguments)? {
        Some(ranges) => Ok(Some(match word {
            JoinWord::Intersection => Range::And(ranges),
            JoinWord::Union => Range::Or(ranges),
        })),
        None => Ok(None),
    }
}

// What is not in a data range.
fn complement(alloc: Global, arguments: Stack) -> Result<Option<Range>, Memory>
    ensures { IfOk result (λ found. found ≡ range_of rangeword.Complement arguments) }
{
    match boxed(alloc, one(arguments))? {
        Some(range) => Ok(Some(Range::Not(range))),
        None => Ok(None),
    }
}

// These literals.
fn one_of(alloc: Global, arguments: Stack) -> Result<Option<Range>, Memory>
    ensures { IfOk result (λ found. found ≡ range_of rangeword.OneOf arguments) }
{
    match each(alloc, arguments)? {
        Some(literals) => Ok(Some(Range::OneOf(literals))),
        None => Ok(None),
    }
}

// A datatype, and facets of it.
fn restriction(alloc: Global, mut arguments: Stack) -> Result<Option<Range>, Memory>
    ensures { IfOk result (λ found. found ≡ restriction arguments) }
{
    let datatype: Option<Word> = next(&mut arguments);
    let facets = facets(alloc, arguments)?;
    Ok(
        datatype
            .zip(facets)
            .map(|(datatype, facets)| Range::Restriction(datatype, facets)),
    )
}

// Names of facets, each with its value.
fn facets(alloc: Global, mut arguments: Stack) -> Result<Option<Facets>, Memory>
    ensures { IfOk result (λ found. found ≡ facets arguments) }
{
    let mut all = Many::new(alloc);
    'facets: while !arguments.is_empty() {
        match facet(&mut arguments) {
            Some(facet) => all.push(facet)?,
            None => return Ok(None),
        }
    }
    Ok(Some(all))
}

// Takes the facet of a name and the value behind it.
fn facet(arguments: &mut Stack) -> Option<Facet>
    ensures found { result ≡ facet arguments.old }
    ensures behind { arguments.new ≡ behind_top (behind_top arguments.old) }
{
    let found: Option<(Word, Literal)> = next_two(arguments);
    found.map(|(facet, value)| Facet { facet, value })
}
