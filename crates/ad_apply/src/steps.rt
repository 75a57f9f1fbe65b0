ghost use Rattle.std.specs.Prelude.{◌≡◌, IfOk};
ghost use Rattle.ad_apply.specs.Steps.{op_in, batch_in};

use ad_base::Memory;
use ad_tree::{Noted, Op, Sign};
use std::alloc::Global;
use std::sync::Arc;

/// One operation of a batch, with its axiom shared.
#[derive(Drop)]
pub struct Step {
    pub sign: Sign,
    pub noted: Arc<Noted>,
}

fn shared(alloc: Global, op: &Op) -> Result<Step, Memory>
    ensures { IfOk result (λ step. op_in step ≡ op.now) }
{
    Ok(Step {
        sign: op.sign,
        noted: Arc::new(alloc, op.noted.copy(alloc)?)?,
    })
}

/// The operations of a batch. Each axiom is copied once; the log and the next edition share the copy.
pub fn steps_of(alloc: Global, ops: &[Op]) -> Result<Vec<Step>, Memory>
    ensures { IfOk result (λ steps. batch_in steps.items ≡ ops.now) }
{
    let mut steps = Vec::new(alloc);
    for op in ops {
        steps.push(shared(alloc, op)?)?;
    }
    Ok(steps)
}
