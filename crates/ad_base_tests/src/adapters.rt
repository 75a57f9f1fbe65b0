//! Sources and sinks that never fail, and those over the readers and writers of std.
use crate::reads::{LETTERS, gives};
use ad_io::{StdSink, StdSource, SureSource, Wrote, put_all};
use std::test::Fail;

#[test]
fn sure_sources_pass_bytes_on(rt: HostRuntime) -> Result<(), Fail> {
    let mut source = SureSource::new(LETTERS.to_vec(rt.alloc())?);
    assert!(rt; gives(rt.alloc(), &mut source, 10, LETTERS));
    Ok(())
}

#[test]
fn std_sources_pass_bytes_on(rt: HostRuntime) {
    let mut source = StdSource::new(LETTERS);
    assert!(rt; gives(rt.alloc(), &mut source, 10, LETTERS));
}

#[test]
fn std_sinks_pass_bytes_on(rt: HostRuntime) {
    let mut out = Vec::new(rt.alloc());
    let wrote = put_all(&mut StdSink::new(&mut out), LETTERS);
    assert!(rt; wrote == Wrote::All);
    assert!(rt; out.as_slice() == LETTERS);
}

#[test]
fn a_std_writer_that_takes_nothing_more_has_failed(rt: HostRuntime) {
    let mut small = [0u8; 3];
    let wrote = put_all(&mut StdSink::new(small.as_mut_slice()), LETTERS);
    assert!(rt; wrote == Wrote::Failed);
}
