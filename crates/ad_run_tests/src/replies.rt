//! Replies to what no run is refused for.
use ad_base::Memory;
use ad_io::{SureSink, Wrote};
use ad_reply::{Refusal, refuse};
use std::alloc::Global;
use std::test::Fail;

// Whether this is the line that refuses a request.
fn refuses_with(alloc: Global, refusal: Refusal, line: &str) -> Result<bool, Memory> {
    let mut sink = SureSink::new(alloc, 100)?;
    let wrote = refuse(refusal, &mut sink);
    Ok(wrote == Wrote::All && sink.bytes() == line.as_bytes())
}

#[test]
fn want_of_memory_and_shut_editions(rt: HostRuntime) -> Result<(), Fail> {
    assert!(rt; refuses_with(rt.alloc(), Refusal::Memory, "NO 90\n")?);
    assert!(rt; refuses_with(rt.alloc(), Refusal::Shut, "NO 91\n")?);
    Ok(())
}
