//! Words, their copies and their order.
use ad_base::{Memory, Word};
use std::alloc::Global;
use std::test::Fail;

// Whether a word and its copy have these bytes.
fn is_copied(alloc: Global, text: &str) -> Result<bool, Memory> {
    let word = Word::of(alloc, text)?;
    let copy = word.copy(alloc)?;
    Ok(copy == word && copy.as_str() == text && word.as_bytes() == text.as_bytes())
}

// Whether the first word is before the second.
fn is_before(alloc: Global, first: &str, second: &str) -> Result<bool, Memory> {
    let first = Word::of(alloc, first)?;
    let second = Word::of(alloc, second)?;
    Ok(first < second && !(second < first))
}

#[test]
fn a_copy_has_the_same_bytes(rt: HostRuntime) -> Result<(), Fail> {
    assert!(rt; is_copied(rt.alloc(), "Class")?);
    Ok(())
}

#[test]
fn a_word_is_before_those_that_it_begins(rt: HostRuntime) -> Result<(), Fail> {
    assert!(rt; is_before(rt.alloc(), "Class", "Classes")?);
    Ok(())
}
