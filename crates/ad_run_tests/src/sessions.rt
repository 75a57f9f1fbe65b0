//! A session over sources and sinks that move few bytes at a call, or fail at one.
ghost use Rattle.std.specs.Prelude.{◌<◌};

use crate::dialogues::end_over;
use ad_base::{Limits, Memory};
use ad_core::Machine;
use ad_gate::FreeGate;
use ad_io::{MemSink, MemSource};
use ad_session::End;
use std::alloc::Global;
use std::hash::RandomState;
use std::test::Fail;
use std::thread::Threads;

// An edit, a module, an edit that is none and whose line feed ends an empty line, and the whole ontology.
const WORKED: &str =
    "EDIT 25\n+SubClassOf(<u:A> <u:B>)\nMODULE bottom 13\nClass(<u:A>)\nEDIT 4\nwhat\nEXPORT\n";

const WORKED_REPLIES: &str =
    "OK 1 37\nadded 1 already 0 removed 0 absent 0\nOK 1 36\nOntology(\nSubClassOf(<u:A> <u:B>)\n)\nNO 20 0\nNO 10\nOK 1 36\nOntology(\nSubClassOf(<u:A> <u:B>)\n)\n";

// Where each item of the worked input ends, and how many bytes the replies up to its own have.
const ITEMS: [(usize, usize); 5] = [(33, 45), (63, 89), (74, 97), (75, 103), (82, 147)];

// The number of a call that is never made.
const NEVER: u64 = 1000;

// How many bytes at a call, and the calls of the source and of the sink that fail.
#[derive(Clone, Copy)]
struct Given {
    piece: usize,
    read: u64,
    write: u64,
}

// The end of the session, how many bytes of the worked replies were written, and how many edits were made.
#[derive(Clone, Copy)]
struct Wanted {
    end: End,
    written: usize,
    edits: u32,
}

// How many bytes of replies there are to the items that stand whole in so many bytes.
fn replies_to(bytes: usize) -> usize {
    let mut written = 0;
    for (behind, count) in ITEMS {
        if behind <= bytes {
            written = count;
        }
    }
    written
}

fn source_of(alloc: Global, given: Given) -> Result<MemSource, Memory>
    requires { 0 < given.piece }
{
    let text = Vec::from_slice(alloc, WORKED.as_bytes())?;
    Ok(MemSource::new(text, given.piece, vec![in alloc; given.read]?))
}

fn sink_of(alloc: Global, given: Given) -> Result<MemSink, Memory>
    requires { 0 < given.piece }
{
    MemSink::new(alloc, 4096, given.piece, vec![in alloc; given.write]?)
}

// How the session over these ends, and how many edits were made.
fn end_of(
    rt: &(impl Threads + Sync),
    alloc: Global,
    keys: RandomState,
    source: &mut MemSource,
    sink: &mut MemSink,
) -> Result<(End, u32), Memory> {
    let mut machine = Machine::new(alloc, keys, Limits::standard(), 1, 1)?;
    let end = end_over(rt, alloc, &mut machine, 0, source, sink, &FreeGate);
    let edits = machine.newest().number();
    drop(machine);
    Ok((end?, edits))
}

// Whether a front of the worked replies of this length was written, and no more.
fn has_written(sink: &MemSink, count: usize) -> bool {
    sink.bytes().len() == count && WORKED_REPLIES.as_bytes().starts_with(sink.bytes())
}

fn comes_to(
    rt: &(impl Threads + Sync),
    alloc: Global,
    keys: RandomState,
    given: Given,
    wanted: Wanted,
) -> Result<bool, Memory>
    requires { 0 < given.piece }
{
    let mut source = source_of(alloc, given)?;
    let mut sink = sink_of(alloc, given)?;
    let (end, edits) = end_of(rt, alloc, keys, &mut source, &mut sink)?;
    Ok(end == wanted.end && edits == wanted.edits && has_written(&sink, wanted.written))
}

#[test]
fn pieces(rt: HostRuntime) -> Result<(), Fail> {
    let keys = RandomState::new(&rt)?;
    let wanted = Wanted {
        end: End::Closed,
        written: WORKED_REPLIES.len(),
        edits: 1,
    };
    for piece in [1, 7, 100] {
        let given = Given {
            piece,
            read: NEVER,
            write: NEVER,
        };
        assert!(rt; comes_to(&rt, rt.alloc(), keys, given, wanted)?);
    }
    Ok(())
}

// A source that gives one byte a call, and fails at a call, has given as many bytes as calls before it.
#[test]
fn failing_sources(rt: HostRuntime) -> Result<(), Fail> {
    let keys = RandomState::new(&rt)?;
    for call in 0..=WORKED.len() {
        let written = replies_to(call);
        let given = Given {
            piece: 1,
            read: call as u64,
            write: NEVER,
        };
        let wanted = Wanted {
            end: End::ReadFault,
            written,
            edits: if written == 0 { 0 } else { 1 },
        };
        assert!(rt; comes_to(&rt, rt.alloc(), keys, given, wanted)?);
    }
    Ok(())
}

// A sink that takes one byte a call, and fails at a call, has taken as many bytes as calls before it. The edit is made
// before its reply is written.
#[test]
fn failing_sinks(rt: HostRuntime) -> Result<(), Fail> {
    let keys = RandomState::new(&rt)?;
    for call in 0..WORKED_REPLIES.len() {
        let given = Given {
            piece: 1,
            read: NEVER,
            write: call as u64,
        };
        let wanted = Wanted {
            end: End::WriteFault,
            written: call,
            edits: 1,
        };
        assert!(rt; comes_to(&rt, rt.alloc(), keys, given, wanted)?);
    }
    Ok(())
}
