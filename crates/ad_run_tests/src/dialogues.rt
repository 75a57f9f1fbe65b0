//! Sessions of a machine that another function holds.
use ad_base::Memory;
use ad_core::Machine;
use ad_gate::{FreeGate, Gate};
use ad_io::{Sink, Source, SureSink, SureSource};
use ad_session::{End, Work, session};
use ad_theory::Tally;
use std::alloc::Global;
use std::thread::Threads;

// How a session of the machine over this source and sink ends.
pub(crate) fn end_over<S: Source, K: Sink, G: Gate>(
    rt: &(impl Threads + Sync),
    alloc: Global,
    machine: &mut Machine,
    index: u32,
    source: &mut S,
    sink: &mut K,
    gate: &G,
) -> Result<End, Memory> {
    let limits = machine.limits();
    let mut work = Work::new(alloc, &limits)?;
    if index < machine.sessions() {
        let mut tally = Tally::new();
        Ok(session(
            rt, alloc, source, sink, machine, index, &mut work, gate, &mut tally,
        ))
    } else {
        Err(Memory)
    }
}

// Whether a session of the machine answers the input so, and ends so.
pub(crate) fn answers(
    rt: &(impl Threads + Sync),
    alloc: Global,
    machine: &mut Machine,
    index: u32,
    input: &str,
    replies: &str,
    end: End,
) -> Result<bool, Memory> {
    let mut sink = SureSink::new(alloc, 4096)?;
    let mut source = SureSource::new(Vec::from_slice(alloc, input.as_bytes())?);
    let found = end_over(rt, alloc, machine, index, &mut source, &mut sink, &FreeGate)?;
    Ok(found == end && sink.bytes() == replies.as_bytes())
}
