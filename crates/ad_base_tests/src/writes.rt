//! Sinks in memory that fail, one piece and several, and the room of sinks.
use crate::reads::LETTERS;
use ad_io::{Failed, MemSink, SureSink, Wrote, append, put_all, put_each};
use std::alloc::Global;
use std::test::Fail;

// A sink that takes at most `piece` bytes a call, and fails at one call.
fn failing(alloc: Global, piece: u8, fault: u64) -> Result<MemSink, Fail> {
    let fail = vec![in alloc; fault]?;
    let most = usize::from(piece).max(1);
    Ok(MemSink::new(alloc, 100, most, fail)?)
}

// Whether the letters are written up to here where this call fails.
fn writes(alloc: Global, piece: u8, fault: u64, written: &str) -> Result<bool, Fail> {
    let mut sink = failing(alloc, piece, fault)?;
    let all = put_all(&mut sink, LETTERS) == Wrote::All;
    Ok(all == (written.len() == 10) && sink.bytes() == written.as_bytes())
}

// How many bytes a call takes, the call that fails, and what was written.
static WRITES: [(u8, u64, &str); 10] = [
    (1, 0, ""),
    (1, 1, "a"),
    (1, 5, "abcde"),
    (1, 9, "abcdefghi"),
    (1, 10, "abcdefghij"),
    (7, 0, ""),
    (7, 1, "abcdefg"),
    (7, 2, "abcdefghij"),
    (100, 0, ""),
    (100, 1, "abcdefghij"),
];

#[test]
fn writes_fail_where_they_are_to(rt: HostRuntime) -> Result<(), Fail> {
    for (piece, fault, written) in &WRITES {
        assert!(rt;
            writes(rt.alloc(), *piece, *fault, written)?,
            "{piece} {fault}"
        );
    }
    Ok(())
}

// The letters between brackets, as a list of pieces.
fn put_bracketed(sink: &mut MemSink) -> Wrote {
    put_each(sink, &[b"(".as_slice(), LETTERS, b")".as_slice()])
}

// The letters between brackets, by `?`.
fn append_bracketed(sink: &mut MemSink) -> Result<(), Failed> {
    append(sink, b"(")?;
    append(sink, LETTERS)?;
    append(sink, b")")
}

// The calls of seven bytes that fail, and what is written of the brackets and the letters.
static BRACKETS: [(u64, &str); 5] = [
    (0, ""),
    (1, "("),
    (2, "(abcdefg"),
    (3, "(abcdefghij"),
    (4, "(abcdefghij)"),
];

// Whether a list of pieces is written up to here.
fn puts(alloc: Global, fault: u64, written: &str) -> Result<bool, Fail> {
    let mut sink = failing(alloc, 7, fault)?;
    let all = put_bracketed(&mut sink) == Wrote::All;
    Ok(all == (fault == 4) && sink.bytes() == written.as_bytes())
}

// Whether pieces that are written by `?` are written up to here.
fn appends(alloc: Global, fault: u64, written: &str) -> Result<bool, Fail> {
    let mut sink = failing(alloc, 7, fault)?;
    let all = Wrote::from(append_bracketed(&mut sink)) == Wrote::All;
    Ok(all == (fault == 4) && sink.bytes() == written.as_bytes())
}

#[test]
fn listed_pieces_stop_where_one_fails(rt: HostRuntime) -> Result<(), Fail> {
    for (fault, written) in &BRACKETS {
        assert!(rt; puts(rt.alloc(), *fault, written)?, "at {fault}");
    }
    Ok(())
}

#[test]
fn appended_pieces_stop_where_one_fails(rt: HostRuntime) -> Result<(), Fail> {
    for (fault, written) in &BRACKETS {
        assert!(rt; appends(rt.alloc(), *fault, written)?, "at {fault}");
    }
    Ok(())
}

#[test]
fn sinks_keep_what_they_have_room_for(rt: HostRuntime) -> Result<(), Fail> {
    let mut sink = MemSink::new(rt.alloc(), 4, 3, Vec::new(rt.alloc()))?;
    assert!(rt; put_all(&mut sink, LETTERS) == Wrote::All);
    assert!(rt; sink.bytes() == b"abcd".as_slice());
    Ok(())
}

#[test]
fn sure_sinks_count_the_others(rt: HostRuntime) -> Result<(), Fail> {
    let mut sink = SureSink::new(rt.alloc(), 4)?;
    assert!(rt; put_all(&mut sink, LETTERS) == Wrote::All);
    assert!(rt; sink.bytes() == b"abcd".as_slice());
    assert!(rt; sink.rest() == 6);
    Ok(())
}
