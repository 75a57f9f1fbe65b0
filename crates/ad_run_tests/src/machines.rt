//! Several sessions of one machine.
use crate::dialogues::answers;
use crate::editions::addition;
use ad_base::{Limits, Memory};
use ad_core::Machine;
use ad_edition::{Look, Receipt};
use ad_gate::FreeGate;
use ad_session::End;
use ad_theory::Tally;
use ad_tree::Batch;
use std::alloc::Global;
use std::hash::RandomState;
use std::process::Abort;
use std::test::Fail;
use std::thread::Threads;

// A session's number, its input and the replies to it.
type Dialogue = (u32, &'static str, &'static str);

// Whether a session of the machine answers the input so, to its end.
fn has(
    rt: &(impl Threads + Sync),
    alloc: Global,
    machine: &mut Machine,
    dialogue: Dialogue,
) -> Result<bool, Memory> {
    let (index, input, replies) = dialogue;
    answers(rt, alloc, machine, index, input, replies, End::Closed)
}

// The numbers of the newest edition and of those that two sessions have entered.
fn numbers(machine: &Machine) -> [u32; 3] {
    let newest = machine.newest().number();
    if machine.sessions() < 2 {
        return [newest; 3];
    }
    [newest, machine.seen(0).number(), machine.seen(1).number()]
}

const EDIT: &str = "EDIT 25\n+SubClassOf(<u:A> <u:B>)\n";

const EDITED: &str = "OK 1 37\nadded 1 already 0 removed 0 absent 0\n";

fn see_each_other(
    rt: &(impl Abort + Threads + Sync),
    alloc: Global,
    machine: &mut Machine,
) -> Result<(), Fail> {
    let table = [
        (0, EDIT, EDITED),
        (
            1,
            "EXPORT\nEDIT 25\n-SubClassOf(<u:A> <u:B>)\n",
            "OK 1 36\nOntology(\nSubClassOf(<u:A> <u:B>)\n)\nOK 2 37\nadded 0 already 0 removed 1 absent 0\n",
        ),
        (0, "EXPORT\n", "OK 2 12\nOntology(\n)\n"),
    ];
    for dialogue in table {
        assert!(rt; has(rt, alloc, machine, dialogue)?);
    }
    Ok(())
}

// Each session sees what the other did.
#[test]
fn two_sessions(rt: HostRuntime) -> Result<(), Fail> {
    let keys = RandomState::new(&rt)?;
    let mut machine = Machine::new(rt.alloc(), keys, Limits::standard(), 2, 1)?;
    let seen = see_each_other(&rt, rt.alloc(), &mut machine);
    drop(machine);
    seen
}

fn stay_where_they_entered(
    rt: &(impl Abort + Threads + Sync),
    alloc: Global,
    machine: &mut Machine,
) -> Result<(), Fail> {
    let more = "EDIT 25\n+SubClassOf(<u:B> <u:C>)\n";
    let removal = "EDIT 25\n-SubClassOf(<u:A> <u:B>)\n";
    let removed = "OK 2 37\nadded 0 already 0 removed 1 absent 0\n";
    let exported = "OK 1 36\nOntology(\nSubClassOf(<u:A> <u:B>)\n)\n";
    let table = [
        ((1, EDIT, EDITED), [1, 0, 0]),
        ((0, "EXPORT\n", exported), [1, 1, 0]),
        ((0, more, "NO 30 1 axioms 2\n"), [1, 1, 0]),
        ((0, removal, removed), [2, 1, 0]),
        ((1, EDIT, "NO 30 2 editions 3\n"), [2, 1, 0]),
        ((1, "EXPORT\n", "OK 2 12\nOntology(\n)\n"), [2, 1, 2]),
    ];
    for (dialogue, entered) in table {
        assert!(rt; has(rt, alloc, machine, dialogue)?);
        assert!(rt; numbers(machine) == entered);
    }
    assert!(rt; machine.newest().bytes() == 12);
    Ok(())
}

// A session stays at the edition that its last query entered, whatever edits it makes. Edits beyond the limits of the
// machine are refused to each.
#[test]
fn entered_editions(rt: HostRuntime) -> Result<(), Fail> {
    let mut limits = Limits::standard();
    limits.axioms = 1;
    limits.editions = 2;
    let keys = RandomState::new(&rt)?;
    let mut machine = Machine::new(rt.alloc(), keys, limits, 2, 16)?;
    let stayed = stay_where_they_entered(&rt, rt.alloc(), &mut machine);
    drop(machine);
    stayed
}

// The receipt of an addition that makes the first edition.
const FIRST: Receipt = Receipt {
    number: 1,
    added: 1,
    already: 0,
    removed: 0,
    absent: 0,
};

// Whether the batch of a session is accepted so.
fn accepts(
    rt: &(impl Threads + Sync),
    alloc: Global,
    machine: &mut Machine,
    index: u32,
    batch: &Batch,
    receipt: Receipt,
) -> bool {
    let mut tally = Tally::new();
    index < machine.sessions()
        && machine.commit(rt, alloc, index, batch, None, &FreeGate, &mut tally) == Ok(receipt)
}

fn enter(machine: &mut Machine, index: u32) {
    if index < machine.sessions() {
        machine.enter(index);
    }
}

fn attend(machine: &mut Machine, index: u32) {
    if index < machine.sessions() {
        machine.attend(index);
    }
}

fn enter_after_an_edit(
    rt: &(impl Abort + Threads + Sync),
    alloc: Global,
    machine: &mut Machine,
) -> Result<(), Fail> {
    let batch = addition(alloc)?;
    assert!(rt; accepts(rt, alloc, machine, 1, &batch, FIRST));
    assert!(rt; numbers(machine) == [1, 0, 0]);
    enter(machine, 0);
    enter(machine, 0);
    assert!(rt; numbers(machine) == [1, 1, 0]);
    Ok(())
}

// What was committed is seen by the sessions that enter it, and entering again changes nothing.
#[test]
fn entering(rt: HostRuntime) -> Result<(), Fail> {
    let keys = RandomState::new(&rt)?;
    let mut machine = Machine::new(rt.alloc(), keys, Limits::standard(), 2, 16)?;
    let entered = enter_after_an_edit(&rt, rt.alloc(), &mut machine);
    drop(machine);
    entered
}

// The number of the edition that the machine lends to its session.
fn lent(rt: &impl Abort, machine: &mut Machine) -> u32 {
    assert!(rt; machine.look() == Ok(()));
    machine.edition().number()
}

fn look_after_an_edit(
    rt: &(impl Abort + Threads + Sync),
    alloc: Global,
    machine: &mut Machine,
) -> Result<(), Fail> {
    assert!(rt; machine.sessions() == 8 && machine.limits().axioms == 20_480);
    attend(machine, 7);
    let batch = addition(alloc)?;
    assert!(rt; accepts(rt, alloc, machine, 7, &batch, FIRST));
    assert!(rt; machine.edition().number() == 0);
    assert!(rt; lent(rt, machine) == 1);
    assert!(rt; machine.edition().bytes() == 36);
    Ok(())
}

#[test]
fn looks(rt: HostRuntime) -> Result<(), Fail> {
    let keys = RandomState::new(&rt)?;
    let mut machine = Machine::new(rt.alloc(), keys, Limits::standard(), 8, 1)?;
    let looked = look_after_an_edit(&rt, rt.alloc(), &mut machine);
    drop(machine);
    looked
}
