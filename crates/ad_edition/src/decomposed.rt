//! The decomposition of an ontology in numbered slots.
ghost use Rattle.std.specs.Prelude.{◌≡◌, ◌≤◌, ◌*◌, [], IfOk};
ghost use Rattle.ad_base.specs.Limits.{AreWithinStandard};
ghost use Rattle.ad_groups.specs.Signatures.{signature_count};
ghost use Rattle.ad_slots.specs.Places.{held_symbols, is_held};
ghost use Rattle.ad_theory.specs.Tally.{IsRaisedBy};
ghost use Rattle.ad_edition.specs.Edition.{FitsLimits, IsDecompositionOf};

use ad_base::{Limits, Memory};
use ad_decompose::Decomposition;
use ad_flat::FlatUniverse;
use ad_numbered::NumberedOntology;
use ad_theory::Tally;
use std::alloc::Global;
use std::thread::Threads;

// Finds the decomposition from scratch. Threads share the work.
pub(crate) fn decomposition_of(
    rt: &(impl Threads + Sync),
    alloc: Global,
    limits: &Limits,
    ontology: &NumberedOntology,
    tally: &mut Tally,
) -> Result<Decomposition, Memory>
    requires limits { AreWithinStandard limits.now }
    requires fits { FitsLimits limits.now ontology.now }
    ensures found { IfOk result (IsDecompositionOf ontology.now) }
    ensures runs { IfOk result (λ found. IsRaisedBy (3 * signature_count (held_symbols ontology.now.held) (is_held ontology.now.held) ontology.now.most)
        tally.old.runs tally.new.runs) }
    ensures tests { tally.old.tests ≤ tally.new.tests }
    ensures counted { tally.old.runs ≤ tally.new.runs }
{
    ontology.laws();
    let order = ontology.order(alloc)?;
    Decomposition::of::<FlatUniverse>(
        rt,
        alloc,
        ontology.universe(),
        limits,
        order.as_slice(),
        tally,
    )
}

// The decomposition of an ontology without axioms.
pub(crate) fn empty_decomposition(
    alloc: Global,
    ontology: &NumberedOntology,
) -> Result<Decomposition, Memory>
    requires { ontology.now.axioms ≡ [] }
    ensures { IfOk result (IsDecompositionOf ontology.now) }
{
    ontology.laws();
    Decomposition::empty(alloc, ontology.universe())
}
