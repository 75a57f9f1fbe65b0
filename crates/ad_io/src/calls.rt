ghost use Rattle.std.specs.Prelude.{◌≡◌, ◌↔◌, IsTrue, Contains, ◌≤◌};
ghost use Rattle.ad_io.specs.Memory.{after_call};

use std::marker::Model;

// Which calls of a source or a sink in memory fail, and how many were made and failed.
#[derive(Drop)]
pub(crate) struct Calls {
    fail: Vec<u64>,
    made: u64,
    faults: u64,
}

impl Model for Calls {
    ghost use Rattle.ad_io.specs.Memory as seen;

    ghost Value = { seen.Calls };

    ghost view = { λ calls. record { fail = calls.fail.items; made = calls.made; faults = calls.faults } };
}

impl Calls {
    // No call was made. Those with these numbers, from 0, will fail.
    pub(crate) fn new(fail: Vec<u64>) -> Calls
        ensures { result ≡ record { fail = fail.items; made = 0; faults = 0 } }
    {
        Calls {
            fail,
            made: 0,
            faults: 0,
        }
    }

    // Counts a call, and answers whether it is to fail.
    pub(crate) fn next_fails(&mut self) -> bool
        ensures fails { IsTrue result ↔ Contains self.old.fail self.old.made }
        ensures counts { self.new ≡ after_call self.old result }
        ensures later { self.old.faults ≤ self.new.faults }
    {
        let fails = self.fail.contains(&self.made);
        self.made = self.made.saturating_add(1);
        if fails {
            self.faults = self.faults.saturating_add(1);
        }
        fails
    }
}
