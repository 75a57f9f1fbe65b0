ghost use Rattle.std.specs.Prelude.{◌≡◌, ◌↔◌, ◌<◌, ◌≤◌, ℕ, Bool, List, IsTrue, IsFalse, false, length};
ghost use Rattle.ad_base.specs.declared.limits.Side.{Side};
ghost use Rattle.ad_bits.specs.Rows.{has};
ghost use Rattle.ad_theory.specs.Module.{IsAntitone};
ghost use Rattle.ad_theory.specs.Numbers.{among, logic_of};
ghost use Rattle.ad_theory.specs.Tally.{IsRaisedBy};

use crate::tally::Tally;
use ad_base::Side;
use ad_bits::Row;

/// Numbered axioms (slots) over numbered entities (symbols). A slot that holds an axiom is live.
pub trait Universe {
    ghost slot_count: { Self → ℕ };

    ghost symbol_count: { Self → ℕ };

    ghost is_live: { Self → ℕ → Bool };

    // the symbols in the signature of a slot's axiom
    ghost symbols_of: { Self → ℕ → List ℕ };

    // the slots in whose signatures a symbol stands
    ghost slots_of: { Self → ℕ → List ℕ };

    // the slots that are not local for the empty set
    ghost globals_of: { Self → Side → List ℕ };

    // whether a slot is local for a set of symbols; a slot that is not live is local
    ghost is_local: { Self → Side → (ℕ → Bool) → ℕ → Bool };

    /// How many slots there are, live or not.
    fn slots(&self) -> u32
        ensures { result ≡ slot_count self.now };

    /// How many symbols there may be.
    fn symbols(&self) -> u32
        ensures { result ≡ symbol_count self.now };

    /// Whether the slot holds an axiom.
    fn live(&self, i: u32) -> bool
        requires { i < slot_count self.now }
        ensures { result ≡ is_live self.now i };

    /// The symbols in the signature of the slot's axiom.
    fn signature(&self, i: u32) -> &[u32]
        requires { i < slot_count self.now }
        ensures { result.now ≡ symbols_of self.now i };

    /// The live slots in whose signatures the symbol stands.
    fn occurs(&self, s: u32) -> &[u32]
        requires { s < symbol_count self.now }
        ensures { result.now ≡ slots_of self.now s };

    /// The live slots that are not local for the empty set.
    fn global(&self, side: Side) -> &[u32]
        ensures { result.now ≡ globals_of self.now side };

    /// Whether the slot is local for the symbols in `seen`.
    fn local(&self, side: Side, i: u32, seen: &Row, tally: &mut Tally) -> bool
        requires slot { i < slot_count self.now }
        requires row { length seen.now ≡ symbol_count self.now }
        ensures answer { result ≡ is_local self.now side (has seen.now) i }
        ensures tests { IsRaisedBy 1 tally.old.tests tally.new.tests }
        ensures runs { tally.new.runs ≡ tally.old.runs };

    // for sums over slots and symbols, which then fit their types
    ghost small: { (u : Self) → (slot_count u ≤ 65536) × (symbol_count u ≤ 65536) };

    // for calls at a slot that was found to be live
    ghost live_below: { (u : Self) (i : ℕ) → IsTrue (is_live u i) → i < slot_count u };

    // for marking an axiom's symbols in a row
    ghost symbols_below: { (u : Self) (i s : ℕ) → IsTrue (is_live u i) → IsTrue (among (symbols_of u i) s) → s < symbol_count u };

    // a new symbol can make only these slots not local
    ghost occurrences: { (u : Self) (s i : ℕ) → IsTrue (among (slots_of u s) i) ↔ (IsTrue (is_live u i) × IsTrue (among (symbols_of u i) s)) };

    // these slots are in every module, and all others wait for a symbol
    ghost globals: { (u : Self) (side : Side) (i : ℕ) → IsTrue (among (globals_of u side) i) ↔ (IsTrue (is_live u i) × IsFalse (is_local u side (λ _. false) i)) };

    // locality shrinks as the set grows, and depends only on those of its members that are in the axiom's signature
    ghost antitone: { (u : Self) (side : Side) → IsAntitone (logic_of (symbols_of u) (is_local u side)) };
}
