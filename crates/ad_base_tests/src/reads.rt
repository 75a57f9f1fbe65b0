//! Sources in memory that fail, and the limit of what is read.
use ad_io::{MemSource, ReadEnd, Source, read_to_end};
use std::alloc::Global;
use std::test::Fail;

// What the sources of these tests give.
pub(crate) const LETTERS: &[u8] = b"abcdefghij";

// Whether exactly this text is left, and is within the limit.
pub(crate) fn gives<S: Source>(alloc: Global, source: &mut S, limit: u16, text: &[u8]) -> bool {
    match read_to_end(alloc, source, u64::from(limit)) {
        Ok(bytes) => bytes.as_slice() == text,
        Err(_) => false,
    }
}

// Whether reading fails since the source does.
fn fails(alloc: Global, source: &mut MemSource) -> bool {
    matches!(read_to_end(alloc, source, 99), Err(ReadEnd::Failed))
}

// Whether more than the limit is left.
fn is_long(alloc: Global, source: &mut MemSource, limit: u16) -> bool {
    matches!(
        read_to_end(alloc, source, u64::from(limit)),
        Err(ReadEnd::Long)
    )
}

// A source of ten letters, at most `piece` a call, that fails at one call.
fn letters(alloc: Global, piece: u8, fault: u64) -> Result<MemSource, Fail> {
    let fail = vec![in alloc; fault]?;
    let most = usize::from(piece).max(1);
    Ok(MemSource::new(LETTERS.to_vec(alloc)?, most, fail))
}

// Whether reading the letters fails where one of the first calls does.
fn fails_at(alloc: Global, piece: u8, fault: u64) -> Result<bool, Fail> {
    let mut source = letters(alloc, piece, fault)?;
    Ok(fails(alloc, &mut source))
}

// Whether the letters are read where a later call would fail.
fn ends_before(alloc: Global, piece: u8, fault: u64) -> Result<bool, Fail> {
    let mut source = letters(alloc, piece, fault)?;
    Ok(gives(alloc, &mut source, 99, LETTERS))
}

// Whether ten letters are within a limit of ten.
fn is_read_at(alloc: Global, piece: u8) -> Result<bool, Fail> {
    let mut source = letters(alloc, piece, 99)?;
    Ok(gives(alloc, &mut source, 10, LETTERS))
}

// Whether reading stops behind the limit, so that this rest can still be read.
fn stops(alloc: Global, piece: u8, limit: u16, rest: &str) -> Result<bool, Fail> {
    let mut source = letters(alloc, piece, 99)?;
    let stopped = is_long(alloc, &mut source, limit);
    Ok(stopped && gives(alloc, &mut source, 99, rest.as_bytes()))
}

// How many bytes a call gives, and how many calls read ten letters to their end.
static CALLS: [(u8, u64); 3] = [(1, 11), (7, 3), (100, 2)];

#[test]
fn reads_fail_where_they_are_to(rt: HostRuntime) -> Result<(), Fail> {
    for (piece, calls) in &CALLS {
        for fault in 0..*calls {
            assert!(rt; fails_at(rt.alloc(), *piece, fault)?, "{piece} {fault}");
        }
    }
    Ok(())
}

#[test]
fn reads_end_before_a_later_fault(rt: HostRuntime) -> Result<(), Fail> {
    for (piece, calls) in &CALLS {
        assert!(rt; ends_before(rt.alloc(), *piece, *calls)?, "{piece}");
    }
    Ok(())
}

// How many bytes a call gives, the limit, and what is left behind it.
static LIMITS: [(u8, u16, &str); 6] = [
    (1, 9, ""),
    (1, 4, "fghij"),
    (1, 0, "bcdefghij"),
    (7, 9, ""),
    (7, 4, "fghij"),
    (7, 0, "bcdefghij"),
];

#[test]
fn reads_stop_at_the_limit(rt: HostRuntime) -> Result<(), Fail> {
    for (piece, limit, rest) in &LIMITS {
        assert!(rt; stops(rt.alloc(), *piece, *limit, rest)?, "{piece} {limit}");
    }
    Ok(())
}

#[test]
fn a_text_at_the_limit_is_read(rt: HostRuntime) -> Result<(), Fail> {
    assert!(rt; is_read_at(rt.alloc(), 1)?);
    assert!(rt; is_read_at(rt.alloc(), 7)?);
    Ok(())
}
