ghost use Rattle.std.specs.Prelude.{◌≡◌, ◌<◌, ◌≤◌, length};
ghost use Rattle.ad_edition.specs.Sight.{IsFront};
ghost use Rattle.ad_edition.specs.State.{after_attend, entered_by};
ghost use Rattle.ad_items.specs.Items.{bounds_of};
ghost use Rattle.ad_session.specs.Flows.{flow};
ghost use Rattle.ad_session.specs.Machines.{MachineAnswers};
ghost use Rattle.ad_session.specs.Ends.{SessionIs};
ghost use Rattle.ad_session.specs.Rounds.{RoundIs, KeepsOthers};

use crate::answers::answer;
use crate::ends::{End, Pause};
use crate::talking::talk;
use crate::work::{Talk, Work};
use ad_core::Machine;
use ad_gate::Gate;
use ad_io::{Sink, Source};
use ad_theory::Tally;
use std::alloc::Global;
use std::thread::Threads;

/// One session of a machine: reads and answers requests until the input ends. Each query is answered on the newest
/// edition, which the session then enters, and each accepted edit is one entry of the machine's log. It always returns.
/// Behind the line of each request, and before the modules of an edition are found, it passes the gate.
pub fn session<S: Source, K: Sink, G: Gate>(
    rt: &(impl Threads + Sync),
    alloc: Global,
    source: &mut S,
    sink: &mut K,
    machine: &mut Machine,
    index: u32,
    work: &mut Work,
    gate: &G,
    tally: &mut Tally,
) -> End
    requires index { index < length machine.old.entered }
    requires work { work.old.limits ≡ machine.old.limits }
    ensures session { SessionIs MachineAnswers (bounds_of machine.old.limits) result (flow (S.left source.old) (S.faults source.old) (K.written sink.old) (K.faults sink.old)) (flow (S.left source.new) (S.faults source.new) (K.written sink.new) (K.faults sink.new)) (after_attend machine.old index) machine.new }
    ensures entered { IsFront (entered_by machine.old index) (entered_by machine.new index) }
    ensures others { KeepsOthers index machine.old machine.new }
    ensures looks { machine.new.session ≡ index }
    ensures work { work.new.limits ≡ work.old.limits }
    ensures reads { S.faults source.old ≤ S.faults source.new }
    ensures writes { K.faults sink.old ≤ K.faults sink.new }
{
    let mut answered = Talk::new(index);
    machine.attend(index);
    machine.laws();
    'rounds: loop {
        match take_round(
            rt,
            alloc,
            source,
            sink,
            machine,
            &mut answered,
            work,
            gate,
            tally,
        ) {
            None => {}
            Some(end) => return end,
        }
    }
}

// Answers requests up to an edit, makes it and answers it; or up to the end.
fn take_round<S: Source, K: Sink, G: Gate>(
    rt: &(impl Threads + Sync),
    alloc: Global,
    source: &mut S,
    sink: &mut K,
    machine: &mut Machine,
    answered: &mut Talk,
    work: &mut Work,
    gate: &G,
    tally: &mut Tally,
) -> Option<End>
    requires looks { machine.old.session ≡ answered.old.chair }
    requires work { work.old.limits ≡ machine.old.limits }
    ensures round { RoundIs MachineAnswers (bounds_of machine.old.limits) result answered.old.answered answered.new.answered (flow (S.left source.old) (S.faults source.old) (K.written sink.old) (K.faults sink.old)) (flow (S.left source.new) (S.faults source.new) (K.written sink.new) (K.faults sink.new)) machine.old machine.new }
    ensures chair { answered.new.chair ≡ answered.old.chair }
    ensures work { work.new.limits ≡ work.old.limits }
    ensures reads { S.faults source.old ≤ S.faults source.new }
    ensures writes { K.faults sink.old ≤ K.faults sink.new }
{
    machine.laws();
    let limits = machine.limits();
    let index = answered.chair();
    match talk(
        alloc, source, sink, machine, answered, work, limits, gate, tally,
    ) {
        Pause::Ended(end) => {
            machine.laws();
            Some(end)
        }
        Pause::Edit(batch, expected) => {
            machine.laws();
            let outcome = machine.commit(rt, alloc, index, &batch, expected, gate, tally);
            answer(sink, answered, outcome)
        }
    }
}
