ghost use Rattle.std.specs.Prelude.{◌≡◌, ◌∷◌, ◌++◌, [], if◌then◌else◌, length, map, vec_len, IfOk, OnOk};
ghost use Rattle.ad_theory.specs.Sweep.{chosen};
ghost use Rattle.ad_syntax_laws.specs.OntologyModule.{AreAdditions, axioms_of};

use ad_base::Memory;
use ad_tree::{Batch, Lent, Noted, Op, Sign};
use std::alloc::Global;

// How many operations a batch has at most. One with more would not fit into memory.
const MOST: usize = 4_294_967_295;

// Additions of the marked axioms, in order.
pub(crate) fn marked<A: Lent>(
    alloc: Global,
    owners: &[A],
    marks: &Vec<bool>,
) -> Result<Batch, Memory>
    requires { vec_len marks.now ≡ length owners.now }
    ensures additions { IfOk result AreAdditions }
    ensures axioms { IfOk result (λ found. axioms_of found ≡ chosen marks.now.items (map A.lent owners.now)) }
{
    let mut found = Batch::new(alloc);
    for k in 0..owners.len() {
        let is_marked = marks[k];
        add(alloc, &mut found, owners[k].noted(), is_marked)?;
    }
    Ok(found)
}

// Puts an addition of the axiom at the end, if it is marked.
fn add(alloc: Global, found: &mut Batch, noted: &Noted, is_marked: bool) -> Result<(), Memory>
    ensures additions { OnOk result (AreAdditions found.old → AreAdditions found.new) }
    ensures axioms { OnOk result (axioms_of found.new ≡ axioms_of found.old ++ (if is_marked then noted.now ∷ [] else [])) }
{
    if !is_marked {
        return Ok(());
    }
    if found.ops().len() >= MOST {
        return Err(Memory);
    }
    found.push(Op {
        sign: Sign::Add,
        noted: noted.copy(alloc)?,
    })
}
