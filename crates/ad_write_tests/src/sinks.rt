use ad_base::Word;
use ad_io::{MemSink, SureSink, Wrote};
use ad_tree::{Axiom, Class, Many, Noted};
use ad_write::{size, write_to};
use std::alloc::Global;
use std::process::Abort;
use std::test::Fail;

// How many bytes of the axiom with a long name are written where the sink fails at a call. The first call has what
// stands before the name, the second the name, which no page holds, and the third what stands behind it.
const FRONTS: [usize; 4] = [0, 18, 5018, 5020];

// The axiom that a class is below another, with these names.
fn below(alloc: Global, sub: &str, sup: &str) -> Result<Noted, Fail> {
    let sub = Class::Named(Word::of(alloc, sub)?);
    let sup = Class::Named(Word::of(alloc, sup)?);
    Ok(Noted {
        notes: Many::new(alloc),
        axiom: Axiom::SubClassOf(sub, sup),
    })
}

// The axiom with the text `SubClassOf(<u:A> <u:B>)`.
pub(crate) fn pair(alloc: Global) -> Result<Noted, Fail> {
    below(alloc, "u:A", "u:B")
}

// The axiom whose second name has 5,000 letters.
fn long(alloc: Global) -> Result<Noted, Fail> {
    let mut name = String::new(alloc);
    for _letter in 0..5000 {
        name.push('B')?;
    }
    below(alloc, "u:A", name.as_str())
}

// A sink that fails at this call takes this front of the text.
fn assert_front(
    rt: &impl Abort,
    alloc: Global,
    noted: &Noted,
    call: usize,
    front: usize,
) -> Result<(), Fail> {
    let mut sink = MemSink::new(alloc, 6000, 6000, vec![in alloc; call as u64]?)?;
    let wrote = write_to(noted, &mut sink);
    assert!(rt; (wrote == Wrote::All) == (front == 5020));
    assert!(rt; sink.bytes().len() == front);
    Ok(())
}

#[test]
fn a_sink_fails_at_each_call(rt: HostRuntime) -> Result<(), Fail> {
    let noted = long(rt.alloc())?;
    for (call, front) in FRONTS.iter().enumerate() {
        assert_front(&rt, rt.alloc(), &noted, call, *front)?;
    }
    assert!(rt; size(&noted) == 5020);
    Ok(())
}

#[test]
fn a_short_text_is_one_call(rt: HostRuntime) -> Result<(), Fail> {
    let noted = pair(rt.alloc())?;
    let mut sink = MemSink::new(rt.alloc(), 100, 100, vec![in rt.alloc(); 1]?)?;
    assert!(rt; write_to(&noted, &mut sink) == Wrote::All);
    assert!(rt; sink.bytes() == b"SubClassOf(<u:A> <u:B>)".as_slice());
    assert!(rt; size(&noted) == 23);
    Ok(())
}

#[test]
fn all_of_a_long_text(rt: HostRuntime) -> Result<(), Fail> {
    let noted = long(rt.alloc())?;
    let mut sink = SureSink::new(rt.alloc(), 6000)?;
    assert!(rt; write_to(&noted, &mut sink) == Wrote::All);
    assert!(rt; sink.bytes().starts_with(b"SubClassOf(<u:A> <BBBB"));
    assert!(rt; sink.bytes().ends_with(b"BBBB>)"));
    Ok(())
}
