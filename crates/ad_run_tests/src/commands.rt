//! A command over sources, sinks and notes that fail at one call.
use ad_base::{Memory, Word};
use ad_io::{MemSink, MemSource, SureSink, SureSource};
use ad_run::run_once;
use std::alloc::Global;
use std::hash::RandomState;
use std::test::Fail;
use std::thread::Threads;

// Two axioms of which the first is in the bottom module for A.
const PAIR: &str = "Ontology(SubClassOf(<u:A> <u:B>) SubClassOf(<u:C> <u:A>))";

const MODULE_OF_PAIR: &str = "Ontology(\nSubClassOf(<u:A> <u:B>)\n)\n";

const UNCLOSED: &str = "Ontology(SubClassOf(<u:A> <u:B>)";

// The number of a call that is never made.
const NEVER: u64 = 99;

// The words that ask for the bottom module for the class A.
fn words(alloc: Global) -> Result<Vec<Word>, Memory> {
    let mut words = Vec::new(alloc);
    for text in ["module", "bottom", "Class=u:A"] {
        words.push(Word::of(alloc, text)?)?;
    }
    Ok(words)
}

// A source of the pair that fails at this call, and gives seven bytes at each other one.
fn source_of(alloc: Global, call: u64) -> Result<MemSource, Memory> {
    let text = Vec::from_slice(alloc, PAIR.as_bytes())?;
    Ok(MemSource::new(text, 7, vec![in alloc; call]?))
}

// The status where the source fails at one call, and the sink, which takes five bytes at each other one, at one. The
// notes are kept.
fn status_of(
    rt: &(impl Threads + Sync),
    alloc: Global,
    keys: RandomState,
    calls: (u64, u64),
    notes: &mut SureSink,
) -> Result<u8, Memory> {
    let words = words(alloc)?;
    let mut source = source_of(alloc, calls.0)?;
    let mut sink = MemSink::new(alloc, 4096, 5, vec![in alloc; calls.1]?)?;
    Ok(run_once(
        rt,
        alloc,
        keys,
        words.as_slice(),
        &mut source,
        &mut sink,
        notes,
    ))
}

// Whether this is the status and this the note.
fn ends_with(
    rt: &(impl Threads + Sync),
    alloc: Global,
    keys: RandomState,
    calls: (u64, u64),
    status: u8,
    note: &str,
) -> Result<bool, Memory> {
    let mut notes = SureSink::new(alloc, 256)?;
    let found = status_of(rt, alloc, keys, calls, &mut notes)?;
    Ok(found == status && notes.bytes() == note.as_bytes())
}

// The text takes nine reads in pieces of seven bytes, and one that finds the end.
#[test]
fn failing_sources(rt: HostRuntime) -> Result<(), Fail> {
    let keys = RandomState::new(&rt)?;
    for call in 0..10 {
        assert!(rt;
            ends_with(
                &rt,
                rt.alloc(),
                keys,
                (call, NEVER),
                4,
                "owlad: read fault\n"
            )?
        );
    }
    Ok(())
}

// The output of 36 bytes takes some writes.
#[test]
fn failing_sinks(rt: HostRuntime) -> Result<(), Fail> {
    let keys = RandomState::new(&rt)?;
    for call in 0..8 {
        assert!(rt;
            ends_with(
                &rt,
                rt.alloc(),
                keys,
                (NEVER, call),
                5,
                "owlad: write fault\n"
            )?
        );
    }
    assert!(rt; ends_with(&rt, rt.alloc(), keys, (NEVER, NEVER), 0, "")?);
    Ok(())
}

// The status of a command on a text, whose output and notes are kept.
fn status_on(
    rt: &(impl Threads + Sync),
    alloc: Global,
    keys: RandomState,
    text: &str,
    sink: &mut SureSink,
    notes: &mut MemSink,
) -> Result<u8, Memory> {
    let words = words(alloc)?;
    let mut source = SureSource::new(Vec::from_slice(alloc, text.as_bytes())?);
    Ok(run_once(rt, alloc, keys, words.as_slice(), &mut source, sink, notes))
}

// Whether this is the status, this the output and this what the notes got, which take five bytes at a call and fail at
// this one.
fn leaves(
    rt: &(impl Threads + Sync),
    alloc: Global,
    keys: RandomState,
    text: &str,
    call: u64,
    status: u8,
    written: (&str, &str),
) -> Result<bool, Memory> {
    let mut notes = MemSink::new(alloc, 256, 5, vec![in alloc; call]?)?;
    let mut sink = SureSink::new(alloc, 4096)?;
    let found = status_on(rt, alloc, keys, text, &mut sink, &mut notes)?;
    let (output, note) = written;
    Ok(found == status && sink.bytes() == output.as_bytes() && notes.bytes() == note.as_bytes())
}

// Notes that fail have a front of their line, and change nothing else.
#[test]
fn failing_notes(rt: HostRuntime) -> Result<(), Fail> {
    let table = [
        (0, ""),
        (2, "owlad: ref"),
        (3, "owlad: refused "),
        (NEVER, "owlad: refused 20 32\n"),
    ];
    let keys = RandomState::new(&rt)?;
    for (call, note) in table {
        assert!(rt; leaves(&rt, rt.alloc(), keys, UNCLOSED, call, 3, ("", note))?);
    }
    Ok(())
}

// Notes that would fail at once aren't met where all is done.
#[test]
fn notes_of_nothing(rt: HostRuntime) -> Result<(), Fail> {
    let keys = RandomState::new(&rt)?;
    assert!(rt; leaves(&rt, rt.alloc(), keys, PAIR, 0, 0, (MODULE_OF_PAIR, ""))?);
    Ok(())
}
