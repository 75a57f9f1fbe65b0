ghost use Rattle.std.specs.Prelude.{◌≡◌, ◌∷◌, ◌++◌, ◌<◌, [], length, IfOk, OnOk, OnErr};

use crate::axioms::Noted;
use crate::many::Many;
use ad_base::Memory;
use std::alloc::Global;
use std::marker::Model;

/// Whether an operation adds its axiom or takes it out.
#[derive(Clone, Copy, PartialEq, Eq, PartialOrd, Ord, Hash)]
pub enum Sign {
    Add,
    Remove,
}

/// One operation of a batch.
#[derive(Drop, PartialEq, Eq, PartialOrd, Ord, Hash)]
pub struct Op {
    pub sign: Sign,
    pub noted: Noted,
}

impl Op {
    /// Another operation, the same.
    pub fn copy(&self, alloc: Global) -> Result<Op, Memory>
        ensures { IfOk result (λ copy. copy ≡ self.now) }
    {
        Ok(Op {
            sign: self.sign,
            noted: self.noted.copy(alloc)?,
        })
    }
}

// Another list of the same operations.
fn copy_ops(alloc: Global, parts: &[Op]) -> Result<Many<Op>, Memory>
    ensures { IfOk result (λ copy. copy ≡ parts.now) }
{
    let mut copy = Many::new(alloc);
    for part in parts {
        copy.push(part.copy(alloc)?)?;
    }
    Ok(copy)
}

/// Operations on an ontology, to be done one after another.
#[derive(Drop)]
pub struct Batch {
    ops: Many<Op>,
}

impl Model for Batch {
    ghost use Rattle.std.specs.Prelude.{List};
    ghost use Rattle.std.specs.Coded.{coded_list};
    ghost use Rattle.ad_tree.specs.declared.edits.Op.{Op};
    ghost use Rattle.ad_tree.specs.contracts.edits.Op as one;

    ghost Value = { List Op };

    ghost coded = { coded_list one.the_row.coded };

    ghost view = { λ batch. batch.ops };
}

impl Batch {
    /// The batch without operations. It takes no memory.
    pub fn new(alloc: Global) -> Batch
        ensures { result ≡ [] }
    {
        Batch {
            ops: Many::new(alloc),
        }
    }

    /// Puts an operation at the end. A batch has fewer than 2^32 operations.
    pub fn push(&mut self, op: Op) -> Result<(), Memory>
        requires { length self.old < 4294967295 }
        ensures ok { OnOk result (self.new ≡ self.old ++ op ∷ []) }
        ensures err { OnErr result (self.new ≡ self.old) }
    {
        self.ops.push(op)
    }

    /// The operations, in order.
    pub fn ops(&self) -> &[Op]
        ensures { result.now ≡ self.now }
    {
        self.ops.as_slice()
    }

    /// Another batch of the same operations.
    pub fn copy(&self, alloc: Global) -> Result<Batch, Memory>
        ensures { IfOk result (λ copy. copy ≡ self.now) }
    {
        Ok(Batch {
            ops: copy_ops(alloc, self.ops())?,
        })
    }
}
