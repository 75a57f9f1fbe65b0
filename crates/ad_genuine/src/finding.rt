ghost use Rattle.std.specs.Prelude.{◌≤◌, ◌*◌, IfOk};
ghost use Rattle.ad_base.specs.Limits.{AreWithinStandard};
ghost use Rattle.ad_decomposition.specs.Tables.{AreGenuine};
ghost use Rattle.ad_theory.specs.Numbers.{AreSizesOf};
ghost use Rattle.ad_theory.specs.Tally.{IsRaisedBy};
ghost use Rattle.ad_groups.specs.Signatures.{signature_count};

use crate::live::live_slots;
use crate::parts::find_shared;
use crate::tables::rows_for;
use ad_base::{Limits, Memory};
use ad_groups::grouped;
use ad_tables::Rows;
use ad_theory::{Tally, Universe};
use std::alloc::Global;
use std::thread::Threads;

/// The genuine modules of all three kinds of every live axiom. Each is found once for all axioms with the same signature,
/// and threads share the work.
pub fn scratch<U: Universe + Sync>(
    rt: &(impl Threads + Sync),
    alloc: Global,
    universe: &U,
    limits: &Limits,
    tally: &mut Tally,
) -> Result<Rows, Memory>
    requires limits { AreWithinStandard limits.now }
    requires sizes { AreSizesOf limits.now (U.slot_count universe.now) (U.symbol_count universe.now) }
    ensures rows { IfOk result (AreGenuine (U.symbols_of universe.now) (U.is_local universe.now) (U.is_live universe.now) (U.slot_count universe.now)) }
    ensures runs { IfOk result (λ rows. IsRaisedBy (3 * signature_count (U.symbols_of universe.now) (U.is_live universe.now) (U.slot_count universe.now))
        tally.old.runs tally.new.runs) }
    ensures tests { tally.old.tests ≤ tally.new.tests }
    ensures counted { tally.old.runs ≤ tally.new.runs }
{
    let live = live_slots(alloc, universe)?;
    let grouping = grouped(alloc, universe, &live)?;
    let found = find_shared::<U>(rt, alloc, universe, limits, &grouping.firsts)?;
    tally.add(&found.tally);
    rows_for(alloc, &grouping.groups, &found)
}
