ghost use Rattle.std.specs.Prelude.{◌≡◌, ◌≤◌, ◌+◌, IfOk, length, vec_capacity};
ghost use Rattle.ad_base.specs.Limits.{AreWithinStandard};

use crate::search::look_at_all;
use crate::waiting::begin;
use ad_base::{Limits, Memory, Side};
use ad_bits::Row;
use ad_theory::{Half, Tally, Universe};
use std::alloc::Global;

/// Finds the modules of one side. It looks at an axiom only where one of the axiom's symbols comes in, so that a module
/// costs no more than its own size and the occurrences of its symbols, but for clearing the rows.
#[derive(Drop)]
pub struct Queue {
    limits: Limits,
    pending: Vec<u32>,
    ghost room: { limits.entities ≤ vec_capacity pending },
}

impl Queue {
    /// Takes all the memory that finding modules needs.
    pub fn new(alloc: Global, limits: &Limits) -> Result<Queue, Memory>
        requires { AreWithinStandard limits.now }
        ensures { IfOk result (λ queue. ⟦<Queue as Half>⟧.made_for queue ≡ limits.now) }
    {
        Ok(Queue {
            limits: *limits,
            pending: Vec::with_capacity(alloc, limits.entities as usize)?,
        })
    }
}

impl Half for Queue {
    ghost made_for = { λ queue. queue.limits };

    fn make_half(alloc: Global, limits: &Limits) -> Result<Queue, Memory> {
        Queue::new(alloc, limits)
    }

    fn module<U: Universe>(
        &mut self,
        universe: &U,
        side: Side,
        seed: &Row,
        within: &Row,
        out: &mut Row,
        closure: &mut Row,
        tally: &mut Tally,
    ) {
        out.clear();
        begin(&mut self.pending, closure, seed);
        let global = universe.global(side);
        look_at_all(
            universe,
            side,
            global,
            within,
            &mut self.pending,
            out,
            closure,
            tally,
        );
        'waiting: while let Some(symbol) = self.pending.pop() {
            let occurs = universe.occurs(symbol);
            look_at_all(
                universe,
                side,
                occurs,
                within,
                &mut self.pending,
                out,
                closure,
                tally,
            );
        }
    }
}
