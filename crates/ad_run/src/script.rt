ghost use Rattle.std.specs.Prelude.{◌≡◌, ◌≤◌};
ghost use Rattle.ad_session.specs.Flows.{flow};
ghost use Rattle.ad_run.specs.Runs.{RunCause};
ghost use Rattle.ad_run.specs.Ends.{ScriptEnds};
ghost use Rattle.ad_run.specs.Statuses.{status_of};

use crate::status::Status;
use ad_base::Limits;
use ad_core::Machine;
use ad_gate::FreeGate;
use ad_io::{Sink, Source};
use ad_session::{End, Work, session};
use ad_theory::Tally;
use std::alloc::Global;
use std::hash::RandomState;
use std::thread::Threads;

// Runs the session whose requests are on the source, over a machine of one session that begins without axioms.
pub(crate) fn run_script<S: Source, K: Sink>(
    rt: &(impl Threads + Sync),
    alloc: Global,
    keys: RandomState,
    workers: u32,
    source: &mut S,
    sink: &mut K,
) -> Status
    requires { (1 ≤ workers) × (workers ≤ 16) }
    ensures ends { ScriptEnds (flow (S.left source.old) (S.faults source.old) (K.written sink.old) (K.faults sink.old)) (flow (S.left source.new) (S.faults source.new) (K.written sink.new) (K.faults sink.new)) result }
    ensures cause { RunCause (flow (S.left source.old) (S.faults source.old) (K.written sink.old) (K.faults sink.old)) (flow (S.left source.new) (S.faults source.new) (K.written sink.new) (K.faults sink.new)) result }
{
    let limits = Limits::standard();
    let mut machine = match Machine::new(alloc, keys, limits, 1, workers) {
        Ok(machine) => machine,
        Err(_memory) => return Status::Memory,
    };
    let mut work = match Work::new(alloc, &limits) {
        Ok(work) => work,
        Err(_memory) => return Status::Memory,
    };
    let mut tally = Tally::new();
    let end = session(
        rt,
        alloc,
        source,
        sink,
        &mut machine,
        0,
        &mut work,
        &FreeGate,
        &mut tally,
    );
    status_of(end)
}

// The status of a session with this end.
fn status_of(end: End) -> Status
    ensures { result ≡ status_of end }
{
    match end {
        End::Quit | End::Closed => Status::Done,
        End::Cut => Status::Cut,
        End::TooLong => Status::TooLong,
        End::Spent => Status::Spent,
        End::ReadFault => Status::ReadFault,
        End::WriteFault => Status::WriteFault,
    }
}
