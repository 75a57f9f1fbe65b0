//! The entities in the signatures of a part's axioms, by their numbers.
ghost use Rattle.std.specs.Prelude.{◌≡◌, ◌<◌, ◌↔◌, ℕ, length, IsTrue};
ghost use Rattle.ad_bits.specs.Rows.{has};
ghost use Rattle.ad_theory.specs.Numbers.{among};
ghost use Rattle.ad_theory.specs.Sweep.{HasAlso};
ghost use Rattle.ad_split.specs.Closure.{IsClosureOf};

use ad_bits::Row;
use ad_theory::Universe;

// Makes these symbols members too.
fn mark(symbols: &[u32], closure: &mut Row)
    requires { (s : ℕ) → IsTrue (among symbols.now s) → s < length closure.old }
    ensures also { HasAlso (has closure.old) (among symbols.now) (has closure.new) }
    ensures size { length closure.new ≡ length closure.old }
{
    for symbol in symbols {
        closure.set(*symbol);
    }
}

// Makes the symbols in the signatures of these slots the members of the closure.
pub(crate) fn gather<U: Universe>(universe: &U, slots: &Row, closure: &mut Row)
    requires live { (i : ℕ) → IsTrue (has slots.now i) → IsTrue (U.is_live universe.now i) }
    requires room { length closure.old ≡ U.symbol_count universe.now }
    ensures closure { IsClosureOf (U.symbols_of universe.now) (has slots.now) (has closure.new) }
    ensures size { length closure.new ≡ length closure.old }
{
    closure.clear();
    // the size fits a `u32`, and so does each number up to it
    let _size = slots.size();
    let mut from = 0;
    'slots: while let Some(slot) = slots.next(from) {
        mark(universe.signature(slot), closure);
        from = slot + 1;
    }
}
