ghost use Rattle.std.specs.Prelude.{◌≡◌, IfOk};
ghost use Rattle.ad_gen.specs.Names.{class_name, twin_name};

use ad_base::{Memory, Word};
use std::alloc::Global;

// The name of the class with this number.
pub(crate) fn class_name(alloc: Global, number: u32) -> Result<Word, Memory>
    ensures { IfOk result (λ name. name ≡ class_name number) }
{
    let name = format!(in alloc; "u:C{number}")?;
    Word::of(alloc, name.as_str())
}

// The name of the class that is equivalent to the one with this number.
pub(crate) fn twin_name(alloc: Global, number: u32) -> Result<Word, Memory>
    ensures { IfOk result (λ name. name ≡ twin_name number) }
{
    let name = format!(in alloc; "u:D{number}")?;
    Word::of(alloc, name.as_str())
}
