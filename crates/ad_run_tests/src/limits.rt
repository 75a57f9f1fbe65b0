//! Sessions under limits below the standard ones.
ghost use Rattle.ad_base.specs.Limits.{AreWithinStandard};

use crate::dialogues::answers;
use ad_base::{Limits, Memory};
use ad_core::Machine;
use ad_session::End;
use std::alloc::Global;
use std::hash::RandomState;
use std::process::Abort;
use std::random::RandomSource;
use std::test::Fail;
use std::thread::Threads;

const THREE: &str =
    "EDIT 75\n+SubClassOf(<u:A> <u:B>)\n+SubClassOf(<u:B> <u:C>)\n+SubClassOf(<u:C> <u:D>)\n";

const EMPTY: &str = "OK 0 12\nOntology(\n)\n";

// Whether a session over a new machine with these limits answers the input so, and ends so.
fn answers_within(
    rt: &(impl Threads + Sync),
    alloc: Global,
    keys: RandomState,
    limits: Limits,
    input: &str,
    replies: &str,
    end: End,
) -> Result<bool, Memory>
    requires { AreWithinStandard limits }
{
    let mut machine = Machine::new(alloc, keys, limits, 1, 1)?;
    let found = answers(rt, alloc, &mut machine, 0, input, replies, end);
    drop(machine);
    found
}

fn expect(
    rt: &(impl Abort + RandomSource + Threads + Sync),
    alloc: Global,
    limits: Limits,
    input: &str,
    replies: &str,
    end: End,
) -> Result<(), Fail>
    requires { AreWithinStandard limits }
{
    let keys = RandomState::new(rt)?;
    assert!(rt;
        answers_within(rt, alloc, keys, limits, input, replies, end)?,
        "{input}"
    );
    Ok(())
}

const ADDED: &str = "OK 1 37\nadded 3 already 0 removed 0 absent 0\n";

// The edit of three axioms has four entities, and makes a document of 84 bytes.
#[test]
fn at_the_limits(rt: HostRuntime) -> Result<(), Fail> {
    let mut limits = Limits::standard();
    limits.axioms = 3;
    limits.entities = 4;
    limits.bytes = 84;
    limits.editions = 1;
    expect(&rt, rt.alloc(), limits, THREE, ADDED, End::Closed)
}

#[test]
fn one_above(rt: HostRuntime) -> Result<(), Fail> {
    let mut limits = Limits::standard();
    limits.axioms = 4;
    limits.entities = 5;
    limits.bytes = 85;
    limits.editions = 2;
    expect(&rt, rt.alloc(), limits, THREE, ADDED, End::Closed)
}

// All limits are one below what the edit needs, and then one after another is not.
#[test]
fn one_below_in_order(rt: HostRuntime) -> Result<(), Fail> {
    let mut limits = Limits::standard();
    limits.axioms = 2;
    limits.entities = 3;
    limits.bytes = 83;
    limits.editions = 0;
    let axioms = "NO 30 0 axioms 3\n";
    expect(&rt, rt.alloc(), limits, THREE, axioms, End::Closed)?;
    limits.axioms = 3;
    let entities = "NO 30 0 entities 4\n";
    expect(&rt, rt.alloc(), limits, THREE, entities, End::Closed)?;
    limits.entities = 4;
    let bytes = "NO 30 0 bytes 84\n";
    expect(&rt, rt.alloc(), limits, THREE, bytes, End::Closed)?;
    limits.bytes = 84;
    let editions = "NO 30 0 editions 1\n";
    expect(&rt, rt.alloc(), limits, THREE, editions, End::Closed)
}

#[test]
fn no_axiom(rt: HostRuntime) -> Result<(), Fail> {
    let mut limits = Limits::standard();
    limits.axioms = 0;
    let input = "EDIT 24\n+SubClassOf(<u:A> <u:B>)";
    let refused = "NO 30 0 axioms 1\n";
    expect(&rt, rt.alloc(), limits, input, refused, End::Closed)
}

#[test]
fn later_editions(rt: HostRuntime) -> Result<(), Fail> {
    let mut limits = Limits::standard();
    limits.editions = 1;
    let input = "EDIT 25\n+SubClassOf(<u:A> <u:B>)\nEDIT 0\n";
    let replies = "OK 1 37\nadded 1 already 0 removed 0 absent 0\nNO 30 1 editions 2\n";
    expect(&rt, rt.alloc(), limits, input, replies, End::Closed)
}

#[test]
fn requests(rt: HostRuntime) -> Result<(), Fail> {
    let mut limits = Limits::standard();
    limits.requests = 1;
    expect(
        &rt,
        rt.alloc(),
        limits,
        "EXPORT\nEXPORT\n",
        EMPTY,
        End::Spent,
    )?;
    limits.requests = 2;
    let input = "\nwhat\nEXPORT\n";
    expect(&rt, rt.alloc(), limits, input, "NO 10\nNO 10\n", End::Spent)
}

#[test]
fn payloads(rt: HostRuntime) -> Result<(), Fail> {
    let mut limits = Limits::standard();
    limits.payload = 30;
    expect(&rt, rt.alloc(), limits, "EDIT 31\n", "", End::TooLong)?;
    expect(&rt, rt.alloc(), limits, "EDIT 30\n", "", End::Cut)
}

// The nesting of an edit under a limit of three.
#[test]
fn nesting(rt: HostRuntime) -> Result<(), Fail> {
    let mut limits = Limits::standard();
    limits.depth = 3;
    let input = "EDIT 5\n+((((EDIT 4\n+(((";
    expect(
        &rt,
        rt.alloc(),
        limits,
        input,
        "NO 21 4\nNO 20 1\n",
        End::Closed,
    )
}
