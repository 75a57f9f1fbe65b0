ghost use Rattle.std.specs.Prelude.{◌≡◌, IfOk};
ghost use Rattle.ad_terms.specs.Built.{key, keyed, two_lists, list_at, last_list};

use crate::item::StackItem;
use crate::reads_as::ReadsAs;
use crate::shapes::{each, next};
use crate::stack::Stack;
use ad_base::Memory;
use ad_tree::{Axiom, Class, Many, ObjProps, Words};
use std::alloc::Global;

// A key: a class, and two lists between parentheses.
pub(crate) fn key(alloc: Global, mut arguments: Stack) -> Result<Option<Axiom>, Memory>
    ensures { IfOk result (λ found. found ≡ key arguments) }
{
    let class = next(&mut arguments);
    Ok(keyed(class, two_lists(alloc, arguments)?))
}

// The key of a class and two lists, if all are there.
fn keyed(class: Option<Class>, lists: Option<(ObjProps, Words)>) -> Option<Axiom>
    ensures { result ≡ keyed class lists }
{
    let (class, (objects, names)) = class.zip(lists)?;
    Some(Axiom::HasKey(class, objects, names))
}

// Two lists between parentheses, with nothing behind them.
fn two_lists(alloc: Global, mut arguments: Stack) -> Result<Option<(ObjProps, Words)>, Memory>
    ensures { IfOk result (λ found. found ≡ two_lists arguments) }
{
    let objects: Option<ObjProps> = list(alloc, &mut arguments)?;
    let names = last_list(alloc, arguments)?;
    Ok(objects.zip(names))
}

// The list between parentheses, with nothing behind it.
fn last_list<A: ReadsAs>(alloc: Global, mut arguments: Stack) -> Result<Option<Many<A>>, Memory>
    ensures { IfOk result (λ found. found ≡ last_list (list_at A.as_item arguments)) }
{
    let members = list(alloc, &mut arguments)?;
    if arguments.is_empty() {
        Ok(members)
    } else {
        Ok(None)
    }
}

// Takes the list between parentheses on top, if one is.
fn list<A: ReadsAs>(alloc: Global, arguments: &mut Stack) -> Result<Option<Many<A>>, Memory>
    ensures { IfOk result (λ found. (found ≡ (list_at A.as_item arguments.old).0) × (arguments.new ≡ (list_at A.as_item arguments.old).1)) }
{
    match arguments.pop() {
        Some(StackItem::Open) => each(alloc, arguments.gather(alloc)?),
        _ => Ok(None),
    }
}
