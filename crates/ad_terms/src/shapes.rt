ghost use Rattle.std.specs.Prelude.{◌≡◌, IfOk};
ghost use Rattle.ad_terms.specs.Shapes.{top_read, behind_top, top_two, one, two, three, optional, optional_behind, counted, each, first_and_each};

use crate::item::StackItem;
use crate::reads_as::ReadsAs;
use crate::stack::Stack;
use ad_base::Memory;
use ad_tree::{Many, One};
use std::alloc::Global;

/// Takes the next argument, if it is of this kind.
pub fn next<A: ReadsAs>(arguments: &mut Stack) -> Option<A>
    ensures found { result ≡ top_read A.as_item arguments.old }
    ensures behind { arguments.new ≡ behind_top arguments.old }
{
    match arguments.pop() {
        Some(item) => A::read(item),
        None => None,
    }
}

/// Takes the next two items, if they are of these kinds.
pub fn next_two<A: ReadsAs, B: ReadsAs>(items: &mut Stack) -> Option<(A, B)>
    ensures found { result ≡ top_two A.as_item B.as_item items.old }
    ensures behind { items.new ≡ behind_top (behind_top items.old) }
{
    let first: Option<A> = next(items);
    first.zip(next(items))
}

/// The one argument.
pub fn one<A: ReadsAs>(mut arguments: Stack) -> Option<A>
    ensures { result ≡ one A.as_item arguments }
{
    let found = next(&mut arguments);
    if arguments.is_empty() { found } else { None }
}

/// The two arguments.
pub fn two<A: ReadsAs, B: ReadsAs>(mut arguments: Stack) -> Option<(A, B)>
    ensures { result ≡ two A.as_item B.as_item arguments }
{
    let first: Option<A> = next(&mut arguments);
    first.zip(one(arguments))
}

/// The three arguments.
pub fn three<A: ReadsAs, B: ReadsAs, C: ReadsAs>(mut arguments: Stack) -> Option<(A, (B, C))>
    ensures { result ≡ three A.as_item B.as_item C.as_item arguments }
{
    let first: Option<A> = next(&mut arguments);
    first.zip(two(arguments))
}

/// The argument, which may be absent.
pub fn optional<A: ReadsAs>(arguments: Stack) -> Option<Option<A>>
    ensures { result ≡ optional A.as_item arguments }
{
    if arguments.is_empty() {
        Some(None)
    } else {
        let found: Option<A> = one(arguments);
        found.map(|argument| Some(argument))
    }
}

// An argument, and one that may be absent.
fn optional_behind<A: ReadsAs, B: ReadsAs>(mut arguments: Stack) -> Option<(A, Option<B>)>
    ensures { result ≡ optional_behind A.as_item B.as_item arguments }
{
    let first: Option<A> = next(&mut arguments);
    first.zip(optional(arguments))
}

/// Two arguments, and a third that may be absent.
pub fn counted<A: ReadsAs, B: ReadsAs, C: ReadsAs>(
    mut arguments: Stack,
) -> Option<(A, (B, Option<C>))>
    ensures { result ≡ counted A.as_item B.as_item C.as_item arguments }
{
    let first: Option<A> = next(&mut arguments);
    first.zip(optional_behind(arguments))
}

/// Each argument.
pub fn each<A: ReadsAs>(alloc: Global, mut arguments: Stack) -> Result<Option<Many<A>>, Memory>
    ensures { IfOk result (λ found. found ≡ each A.as_item arguments) }
{
    let mut all = Many::new(alloc);
    'arguments: while let Some(item) = arguments.pop() {
        match A::read(item) {
            Some(part) => all.push(part)?,
            None => return Ok(None),
        }
    }
    Ok(Some(all))
}

/// The first argument, and each of the others.
pub fn first_and_each<A: ReadsAs, B: ReadsAs>(
    alloc: Global,
    mut arguments: Stack,
) -> Result<Option<(A, Many<B>)>, Memory>
    ensures { IfOk result (λ found. found ≡ first_and_each A.as_item B.as_item arguments) }
{
    let first: Option<A> = next(&mut arguments);
    let others = each(alloc, arguments)?;
    Ok(first.zip(others))
}

/// A part in memory of its own, if it is there.
pub fn boxed<A: Drop>(alloc: Global, part: Option<A>) -> Result<Option<One<A>>, Memory>
    ensures { IfOk result (λ found. found ≡ part) }
{
    match part {
        Some(part) => Ok(Some(One::new(alloc, part)?)),
        None => Ok(None),
    }
}
