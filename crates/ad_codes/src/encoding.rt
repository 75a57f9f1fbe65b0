ghost use Rattle.std.specs.Prelude.{◌≡◌, IfOk};
ghost use Rattle.ad_codes.specs.Encoded.{test_of, code_of};

use crate::axioms::put_axiom;
use crate::buffer::Buffer;
use crate::tested::test_of;
use ad_base::Memory;
use ad_cells::{Cell, Test};
use ad_entity::Naming;
use ad_tree::Axiom;
use std::alloc::Global;

/// What an axiom asks of its operands, and its operands as cells.
#[derive(Drop)]
pub struct Coded {
    pub test: Test,
    pub cells: Vec<Cell>,
}

/// The test and the code of an axiom, where entities have these numbers. It fails for want of memory, or where a list of
/// the axiom has more members than a cell can count.
pub fn encode<N: Naming>(alloc: Global, axiom: &Axiom, names: &N) -> Result<Coded, Memory>
    ensures test { IfOk result (λ coded. coded.test ≡ test_of axiom.now) }
    ensures cells { IfOk result (λ coded. coded.cells.items ≡ code_of (N.number_of names.now) axiom.now) }
{
    let Some(test) = test_of(axiom) else {
        return Err(Memory);
    };
    let mut out = Buffer::new(alloc);
    put_axiom(axiom, names, &mut out);
    if out.failed {
        return Err(Memory);
    }
    Ok(Coded {
        test,
        cells: out.cells,
    })
}
