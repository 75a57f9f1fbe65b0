ghost use Rattle.std.specs.Prelude.{◌≡◌, ◌<◌, [], ◌∷◌, length};
ghost use Rattle.std.proofs.Common.{rules};

use ad_base::Side;
use ad_bits::Row;
use ad_theory::{Tally, Universe, empty_row};
use std::test::Fail;

// Slots 0 and 1 hold axioms. Each has one symbol, its own number, and is local where that isn't seen.
#[derive(Drop)]
pub(crate) struct Loose {
    numbers: [u32; 2],
    ghost own: { numbers ≡ 0 ∷ 1 ∷ [] },
}

impl Universe for Loose {
    ghost use Rattle.ad_decomposition_tests.specs.Loose as loose;

    ghost slot_count = { λ _. 2 };

    ghost symbol_count = { λ _. 2 };

    ghost is_live = { λ _. loose.is_live };

    ghost symbols_of = { λ _. loose.symbols_of };

    ghost slots_of = { λ _. loose.slots_of };

    ghost globals_of = { λ _ _. [] };

    ghost is_local = { λ _ _. loose.is_local };

    ghost small = { Prim.search rules };

    ghost live_below = { Prim.search rules };

    ghost symbols_below = { λ _. loose.symbols_below };

    ghost occurrences = { λ _. loose.occurrences };

    ghost globals = { λ _ _. loose.globals };

    ghost antitone = { λ _ _. loose.antitone };

    fn slots(&self) -> u32 {
        2
    }

    fn symbols(&self) -> u32 {
        2
    }

    fn live(&self, i: u32) -> bool {
        i < 2
    }

    fn signature(&self, i: u32) -> &[u32] {
        let at = i as usize;
        &self.numbers[at..at + 1]
    }

    fn occurs(&self, s: u32) -> &[u32] {
        let at = s as usize;
        &self.numbers[at..at + 1]
    }

    fn global(&self, _side: Side) -> &[u32] {
        &self.numbers[..0]
    }

    fn local(&self, _side: Side, i: u32, seen: &Row, tally: &mut Tally) -> bool {
        tally.count_test();
        !seen.has(i)
    }
}

// A test of locality through the bound.
fn is_local<U: Universe>(universe: &U, i: u32, seen: &Row, tally: &mut Tally) -> bool
    requires slot { i < U.slot_count universe.now }
    requires row { length seen.now ≡ U.symbol_count universe.now }
{
    universe.local(Side::Bottom, i, seen, tally)
}

#[test]
fn a_universe(rt: HostRuntime) -> Result<(), Fail> {
    let universe = Loose { numbers: [0, 1] };
    let mut seen = empty_row(rt.alloc(), universe.symbols())?;
    let mut tally = Tally::new();
    seen.set(1);
    assert!(rt; is_local(&universe, 0, &seen, &mut tally));
    assert!(rt; !is_local(&universe, 1, &seen, &mut tally));
    assert!(rt; tally.tests() == 2 && tally.runs() == 0);
    Ok(())
}
