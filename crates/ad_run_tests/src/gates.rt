//! What passes the gate, and how often.
use crate::dialogues::end_over;
use ad_base::{Limits, Memory};
use ad_core::Machine;
use ad_gate::{Gate, Point};
use ad_io::{SureSink, SureSource};
use std::alloc::Global;
use std::hash::RandomState;
use std::sync::atomic::{AtomicU32, Ordering};
use std::test::Fail;
use std::thread::Threads;

// A gate that counts.
#[derive(Drop)]
struct Counting {
    // the sum of one more than each request's number
    requests: AtomicU32,
    extracts: AtomicU32,
}

impl Gate for Counting {
    fn pass(&self, point: Point) {
        match point {
            Point::Request { chair: _, number } => {
                self.requests
                    .fetch_add(number.wrapping_add(1), Ordering::SeqCst);
            }
            Point::Extract { .. } => {
                self.extracts.fetch_add(1, Ordering::SeqCst);
            }
        }
    }
}

// Runs a session with this input, and answers what the gate counted.
fn counted(
    rt: &(impl Threads + Sync),
    alloc: Global,
    keys: RandomState,
    input: &str,
) -> Result<(u32, u32), Memory> {
    let limits = Limits::standard();
    let mut machine = Machine::new(alloc, keys, limits, 1, 1)?;
    let mut sink = SureSink::new(alloc, 4096)?;
    let mut source = SureSource::new(Vec::from_slice(alloc, input.as_bytes())?);
    let gate = Counting {
        requests: AtomicU32::new(0),
        extracts: AtomicU32::new(0),
    };
    end_over(rt, alloc, &mut machine, 0, &mut source, &mut sink, &gate)?;
    drop(machine);
    Ok((
        gate.requests.load(Ordering::SeqCst),
        gate.extracts.load(Ordering::SeqCst),
    ))
}

// Each line passes the gate once, the one for the end too, and each accepted edit once.
#[test]
fn requests_and_edits(rt: HostRuntime) -> Result<(), Fail> {
    let input = "EDIT 0\nwhat\nEXPORT\nEDIT 0 IF 7\nQUIT\nEXPORT\n";
    let passed = counted(&rt, rt.alloc(), RandomState::new(&rt)?, input)?;
    assert!(rt; passed == (15, 1));
    Ok(())
}
