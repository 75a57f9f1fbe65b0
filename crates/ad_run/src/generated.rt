//! The runs of commands on generated ontologies.
ghost use Rattle.std.specs.Prelude.{◌≢◌, ℕ, List, Option};
ghost use Rattle.ad_command.specs.Asks.{IsWithWorkers};
ghost use Rattle.ad_command.specs.Command.{IsCommand, of_generate, of_summary};
ghost use Rattle.ad_run.specs.Ends.{EndsSo};
ghost use Rattle.ad_run.specs.Runs.{RunCause};
ghost use Rattle.ad_session.specs.Flows.{flow};

use crate::status::Status;
use ad_base::Word;
use ad_generated::{answer_generate, answer_summary};
use ad_io::Sink;
use std::alloc::Global;
use std::hash::RandomState;
use std::thread::Threads;

// The run of a generated document.
pub(crate) fn run_generate<K: Sink>(
    alloc: Global,
    size: u32,
    words: &[Word],
    sink: &mut K,
) -> Status
    requires { IsCommand words.now (of_generate size) }
    ensures ends { (left : Option (List ℕ)) (faults : ℕ) → EndsSo words.now (flow left faults (K.written sink.old) (K.faults sink.old)) (flow left faults (K.written sink.new) (K.faults sink.new)) result }
    ensures asked { result ≢ Status.Usage }
    ensures cause { (left : Option (List ℕ)) (faults : ℕ) → RunCause (flow left faults (K.written sink.old) (K.faults sink.old)) (flow left faults (K.written sink.new) (K.faults sink.new)) result }
{
    Status::of_output(answer_generate(alloc, size, sink))
}

// The run of the summary of a generated ontology.
pub(crate) fn run_summary<K: Sink>(
    rt: &(impl Threads + Sync),
    alloc: Global,
    keys: RandomState,
    size: u32,
    _workers: u32,
    words: &[Word],
    sink: &mut K,
) -> Status
    requires { IsWithWorkers (of_summary size) words.now _workers }
    ensures ends { (left : Option (List ℕ)) (faults : ℕ) → EndsSo words.now (flow left faults (K.written sink.old) (K.faults sink.old)) (flow left faults (K.written sink.new) (K.faults sink.new)) result }
    ensures asked { result ≢ Status.Usage }
    ensures cause { (left : Option (List ℕ)) (faults : ℕ) → RunCause (flow left faults (K.written sink.old) (K.faults sink.old)) (flow left faults (K.written sink.new) (K.faults sink.new)) result }
{
    Status::of_output(answer_summary(rt, alloc, keys, size, sink))
}
