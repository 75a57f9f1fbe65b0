//! What holds of numbered slots. Each law is the contract of a function that does nothing.

ghost use Rattle.std.specs.Prelude.{◌≡◌, ◌≢◌, ◌↔◌, ◌<◌, ◌≤◌, ℕ, Bool, false, List, Option, None, IsTrue, IsFalse, length};
ghost use Rattle.std.specs.Ordering.{nat_cmp};
ghost use Rattle.std.specs.List.Sorted.{IsStrictlySortedBy};
ghost use Rattle.ad_base.specs.declared.limits.Side.{Side};
ghost use Rattle.ad_theory.specs.Module.{IsAntitone};
ghost use Rattle.ad_theory.specs.Numbers.{among, logic_of};
ghost use Rattle.ad_cells.specs.Codes.{CodesShrink};
ghost use Rattle.ad_slots.specs.Held.{Held};
ghost use Rattle.ad_slots.specs.Rising.{IsWith, IsWithout};
ghost use Rattle.ad_slots.specs.Places.{is_held, held_symbols, is_held_local, held_slots, held_globals, least_free, slots_where, AreCovered, IsReplaced};

/// The slots are as the axioms of a universe have to be.
pub fn slots_make_a_universe()
    ensures live_below { (slots : List (Option Held)) (i : ℕ) → IsTrue (is_held slots i) → i < length slots }
    ensures occurrences { (slots : List (Option Held)) (s i : ℕ) →
        IsTrue (among (held_slots slots s) i) ↔ (IsTrue (is_held slots i) × IsTrue (among (held_symbols slots i) s)) }
    ensures globals { (slots : List (Option Held)) (side : Side) (i : ℕ) →
        IsTrue (among (held_globals slots side) i) ↔ (IsTrue (is_held slots i) × IsFalse (is_held_local slots side (λ _. false) i)) }
    ensures antitone { CodesShrink → (slots : List (Option Held)) (side : Side) → AreCovered slots →
        IsAntitone (logic_of (held_symbols slots) (is_held_local slots side)) }
{}

/// The slots with a symbol, and the global ones, are listed strictly rising.
pub fn lists_rise()
    ensures slots { (slots : List (Option Held)) (s : ℕ) → IsStrictlySortedBy nat_cmp (held_slots slots s) }
    ensures globals { (slots : List (Option Held)) (side : Side) → IsStrictlySortedBy nat_cmp (held_globals slots side) }
{}

/// The least free slot is free, and all slots below it are held.
pub fn least_free_is_least()
    ensures free { (slots : List (Option Held)) → IsFalse (is_held slots (least_free slots)) }
    ensures least { (slots : List (Option Held)) (i : ℕ) → i < least_free slots → IsTrue (is_held slots i) }
    ensures within { (slots : List (Option Held)) → least_free slots ≤ length slots }
{}

/// What becomes of the list of slots that pass a test, where one slot changes.
pub fn lists_change_with_slots()
    ensures comes { (test : Option Held → Bool) → test None ≡ false → (i : ℕ) (slot : Option Held) (before after : List (Option Held)) (list : List ℕ) →
        IsReplaced i slot before after → IsTrue (test slot) → IsWith i (slots_where test before) list → list ≡ slots_where test after }
    ensures leaves { (test : Option Held → Bool) → test None ≡ false → (i : ℕ) (slot : Option Held) (before after : List (Option Held)) (list : List ℕ) →
        IsReplaced i slot before after → IsFalse (test slot) → IsWithout i (slots_where test before) list → list ≡ slots_where test after }
{}
