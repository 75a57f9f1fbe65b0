ghost use Rattle.std.specs.Prelude.{◌≡◌, ◌≤◌, ◌+◌, IfOk, IsTrue, length};
ghost use Rattle.ad_base.specs.declared.limits.Limits.{Limits};
ghost use Rattle.ad_base.specs.Limits.{AreWithinStandard};
ghost use Rattle.ad_bits.specs.Rows.{has};
ghost use Rattle.ad_theory.specs.Module.{IsModule};
ghost use Rattle.ad_theory.specs.Numbers.{logic_of, sum_where, AreSizesOf, IsNumberedModule};
ghost use Rattle.ad_theory.specs.Tally.{IsRaisedBy};

use crate::tally::Tally;
use crate::universe::Universe;
use ad_base::{Kind, Limits, Memory, Side};
use ad_bits::Row;
use std::alloc::Global;

/// Finds the modules of one side.
pub trait Half: Drop {
    // the limits that it was made for
    ghost made_for: { Self → Limits };

    /// Takes all the memory that finding modules needs.
    fn make_half(alloc: Global, limits: &Limits) -> Result<Self, Memory>
        requires { AreWithinStandard limits.now }
        ensures { IfOk result (λ half. made_for half ≡ limits.now) };

    /// Puts the module for `seed` of the live slots in `within` into `out`, and the seed with the module's symbols
    /// into `closure`.
    fn module<U: Universe>(
        &mut self,
        universe: &U,
        side: Side,
        seed: &Row,
        within: &Row,
        out: &mut Row,
        closure: &mut Row,
        tally: &mut Tally,
    )
        requires limits { AreSizesOf (made_for self.old) (U.slot_count universe.now) (U.symbol_count universe.now) }
        requires seed { length seed.now ≡ U.symbol_count universe.now }
        requires within { length within.now ≡ U.slot_count universe.now }
        requires out { length out.old ≡ U.slot_count universe.now }
        requires closure { length closure.old ≡ U.symbol_count universe.now }
        ensures found { IsModule (logic_of (U.symbols_of universe.now) (U.is_local universe.now side)) (has seed.now)
            (λ i. IsTrue (U.is_live universe.now i) × IsTrue (has within.now i)) (has out.new) (has closure.new) }

        // a test for each global slot, and for each occurrence of a symbol in the closure
        ensures tests { tally.new.tests ≤ tally.old.tests + length (U.globals_of universe.now side)
            + sum_where (has closure.new) (λ s. length (U.slots_of universe.now s)) (U.symbol_count universe.now) }
        ensures counted { tally.old.tests ≤ tally.new.tests }
        ensures runs { tally.new.runs ≡ tally.old.runs }
        ensures out { length out.new ≡ length out.old }
        ensures closure { length closure.new ≡ length closure.old }
        ensures limits { made_for self.new ≡ made_for self.old };
}

/// Finds the modules of every kind.
pub trait Extractor: Drop {
    // the limits that it was made for
    ghost made_for: { Self → Limits };

    /// Takes all the memory that finding modules needs.
    fn make(alloc: Global, limits: &Limits) -> Result<Self, Memory>
        requires { AreWithinStandard limits.now }
        ensures { IfOk result (λ extractor. made_for extractor ≡ limits.now) };

    /// Puts the module of the kind for `seed` of all live slots into `out`, and the seed with the module's symbols
    /// into `closure`.
    fn module<U: Universe>(
        &mut self,
        universe: &U,
        kind: Kind,
        seed: &Row,
        out: &mut Row,
        closure: &mut Row,
        tally: &mut Tally,
    )
        requires limits { AreSizesOf (made_for self.old) (U.slot_count universe.now) (U.symbol_count universe.now) }
        requires seed { length seed.now ≡ U.symbol_count universe.now }
        requires out { length out.old ≡ U.slot_count universe.now }
        requires closure { length closure.old ≡ U.symbol_count universe.now }
        ensures found { IsNumberedModule kind (U.symbols_of universe.now) (U.is_local universe.now) (has seed.now)
            (λ i. IsTrue (U.is_live universe.now i)) (has out.new) (has closure.new) }
        ensures counted { tally.old.tests ≤ tally.new.tests }
        ensures runs { IsRaisedBy 1 tally.old.runs tally.new.runs }
        ensures out { length out.new ≡ length out.old }
        ensures closure { length closure.new ≡ length closure.old }
        ensures limits { made_for self.new ≡ made_for self.old };
}
