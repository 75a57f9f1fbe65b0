ghost use Rattle.std.specs.Prelude.{◌≡◌, false, length, map, vec_len, replicate, IfOk};
ghost use Rattle.ad_base.specs.Kinds.{kind_of};
ghost use Rattle.ad_entity.specs.declared.entities.Entity.{Entity};
ghost use Rattle.ad_syntax_laws.specs.OntologyLogic.{seed_test};
ghost use Rattle.ad_names.specs.Names.{is_member};
ghost use Rattle.ad_syntax_laws.specs.ModuleDocument.{IsModuleDocumentOf};
ghost use Rattle.ad_syntax_laws.specs.OntologyModule.{AreAdditions, IsModuleOf, axioms_of};
ghost use Rattle.ad_sweep.specs.Swept.{IsSwept};

use crate::carried::mark_carried;
use crate::chosen::marked;
use crate::rounds::round;
use ad_base::{Memory, Side};
use ad_names::{Names, take_entities};
use ad_tree::{Batch, Lent, Seed};
use std::alloc::Global;

/// The module of the batch's axioms for the seed, on a side: as additions, in order. The carried axioms are left out.
pub fn sweep(alloc: Global, side: Side, axioms: &Batch, seed: &Seed) -> Result<Batch, Memory>
    ensures additions { IfOk result AreAdditions }
    ensures module { IfOk result (λ found. IsModuleOf (kind_of side) (seed_test seed.now) (axioms_of axioms.now) (axioms_of found)) }
{
    module_of(alloc, side, axioms.ops(), seed)
}

/// The module of these axioms for the seed, on a side: as additions, in order, by rounds over the axioms until one
/// finds no more. The carried axioms are left out.
pub fn module_of<A: Lent>(
    alloc: Global,
    side: Side,
    owners: &[A],
    seed: &Seed,
) -> Result<Batch, Memory>
    ensures additions { IfOk result AreAdditions }
    ensures module { IfOk result (λ found. IsModuleOf (kind_of side) (seed_test seed.now) (map A.lent owners.now) (axioms_of found)) }
{
    let swept = sweep_to_end(alloc, side, owners, seed)?;
    marked(alloc, owners, &swept.marks)
}

/// The document of the module of these axioms for the seed, on a side: as additions, in order. With the module's axioms
/// come the declarations of the entities of the seed and of the module, and the annotation assertions on their IRIs.
pub fn document_of<A: Lent>(
    alloc: Global,
    side: Side,
    owners: &[A],
    seed: &Seed,
) -> Result<Batch, Memory>
    ensures additions { IfOk result AreAdditions }
    ensures document { IfOk result (λ found. IsModuleDocumentOf (kind_of side) (seed_test seed.now) (map A.lent owners.now) (axioms_of found)) }
{
    let mut swept = sweep_to_end(alloc, side, owners, seed)?;
    mark_carried(owners, &swept.names, &mut swept.marks);
    marked(alloc, owners, &swept.marks)
}

// Where a sweep has ended: which axioms are marked as the module's, and the seed with their names.
#[derive(Drop)]
struct Swept {
    marks: Vec<bool>,
    names: Names,
}

// Goes in rounds over the axioms until one finds no more.
fn sweep_to_end<A: Lent>(
    alloc: Global,
    side: Side,
    owners: &[A],
    seed: &Seed,
) -> Result<Swept, Memory>
    ensures long { IfOk result (λ swept. vec_len swept.marks ≡ length owners.now) }
    ensures swept { IfOk result (λ swept. IsSwept side (seed_test seed.now) (map A.lent owners.now) swept.marks.items (is_member swept.names)) }
{
    let mut names = names_of_seed(alloc, seed)?;
    let mut marks = no_marks(alloc, owners.len())?;
    'rounds: loop {
        let more = round(side, owners, &mut marks, &mut names)?;
        if !more {
            break;
        }
    }
    Ok(Swept { marks, names })
}

// The entities of the seed, but for the built-in ones.
fn names_of_seed(alloc: Global, seed: &Seed) -> Result<Names, Memory>
    ensures { IfOk result (λ names. (e : Entity) → is_member names e ≡ seed_test seed.now e) }
{
    let mut names = Names::new(alloc);
    take_entities(seed.entities(), &mut names)?;
    Ok(names)
}

// Marks of n axioms, none of them set.
fn no_marks(alloc: Global, n: usize) -> Result<Vec<bool>, Memory>
    ensures len { IfOk result (λ marks. vec_len marks ≡ n) }
    ensures items { IfOk result (λ marks. marks.items ≡ replicate n false) }
{
    Ok(vec![in alloc; false; n]?)
}
