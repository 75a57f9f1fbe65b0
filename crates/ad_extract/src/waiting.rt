//! The symbols that were reached, and the stack of those that wait.
ghost use Rattle.std.specs.Prelude.{◌≡◌, ◌≤◌, ◌<◌, ℕ, ◌⊎◌, ◌↔◌, IsTrue, IsFalse, length, vec_capacity};
ghost use Rattle.ad_bits.specs.Rows.{has};
ghost use Rattle.ad_theory.specs.Numbers.{among};
ghost use Rattle.ad_theory.specs.Sweep.{HasAlso};
ghost use Rattle.ad_extract.specs.Waiting.{IsWaiting, settled};

use ad_bits::Row;

// Reaches a symbol. It waits then, unless it was reached before.
pub(crate) fn reach(pending: &mut Vec<u32>, reached: &mut Row, symbol: u32)
    requires symbol { symbol < length reached.old }
    requires room { length reached.old ≤ vec_capacity pending.old }
    requires waiting { IsWaiting pending.old.items reached.old }
    ensures waiting { IsWaiting pending.new.items reached.new }
    ensures also { (s : ℕ) → IsTrue (has reached.new s) ↔ (IsTrue (has reached.old s) ⊎ (s ≡ symbol)) }
    ensures settled { (s : ℕ) → settled pending.new.items reached.new s ≡ settled pending.old.items reached.old s }
    ensures room { vec_capacity pending.new ≡ vec_capacity pending.old }
    ensures size { length reached.new ≡ length reached.old }
{
    if !reached.has(symbol) {
        reached.set(symbol);
        pending.push_reserved(symbol);
    }
}

/// Reaches each of these symbols.
pub fn reach_all(pending: &mut Vec<u32>, reached: &mut Row, symbols: &[u32])
    requires symbols { (s : ℕ) → IsTrue (among symbols.now s) → s < length reached.old }
    requires room { length reached.old ≤ vec_capacity pending.old }
    requires waiting { IsWaiting pending.old.items reached.old }
    ensures waiting { IsWaiting pending.new.items reached.new }
    ensures also { HasAlso (has reached.old) (among symbols.now) (has reached.new) }
    ensures settled { (s : ℕ) → settled pending.new.items reached.new s ≡ settled pending.old.items reached.old s }
    ensures room { vec_capacity pending.new ≡ vec_capacity pending.old }
    ensures size { length reached.new ≡ length reached.old }
{
    for symbol in symbols {
        reach(pending, reached, *symbol);
    }
}

/// Begins anew: the symbols of the seed are reached, and all of them wait.
pub fn begin(pending: &mut Vec<u32>, reached: &mut Row, seed: &Row)
    requires size { length seed.now ≡ length reached.old }
    requires room { length reached.old ≤ vec_capacity pending.old }
    ensures waiting { IsWaiting pending.new.items reached.new }
    ensures seed { (s : ℕ) → IsTrue (has reached.new s) ↔ IsTrue (has seed.now s) }
    ensures settled { (s : ℕ) → IsFalse (settled pending.new.items reached.new s) }
    ensures room { vec_capacity pending.new ≡ vec_capacity pending.old }
    ensures size { length reached.new ≡ length reached.old }
{
    pending.clear();
    reached.clear();
    // the size fits a `u32`, and so does each number up to it
    let _size = seed.size();
    let mut from = 0;
    'members: while let Some(symbol) = seed.next(from) {
        reach(pending, reached, symbol);
        from = symbol + 1;
    }
}
