ghost use Rattle.std.specs.Prelude.{◌≡◌, ◌↔◌, ◌<◌, ℕ, Bool, List, Some, None, length, slice_index_or, IsTrue, IsFalse};
ghost use Rattle.std.specs.List.{Contains};
ghost use Rattle.ad_base.specs.declared.limits.Kind.{Kind};
ghost use Rattle.ad_base.specs.declared.limits.Side.{Side};
ghost use Rattle.ad_tables.specs.Rows.{Tables, of_kind};
ghost use Rattle.ad_theory.specs.Genuine.{IsGenuine};
ghost use Rattle.ad_theory.specs.Module.{IsAntitone};
ghost use Rattle.ad_theory.specs.Numbers.{logic_of};
ghost use Rattle.ad_decomposition.specs.Affected.{Change, IsChangeOfSlots, affected};
ghost use Rattle.ad_decomposition.specs.Atoms.{atom_of, firsts, covers, depends, depends_strictly};
ghost use Rattle.ad_decomposition.specs.Tables.{AreGenuine, AreNested, HaveRows, is_in_row_of};

use ad_theory::Universe;

/// The rows of genuine modules nest: each has the row of each of its axioms.
pub fn rows_nest<U: Universe>()
    ensures { (u : U) (tables : Tables) (kind : Kind) (order : List ℕ) →
        AreGenuine (U.symbols_of u) (U.is_local u) (U.is_live u) (U.slot_count u) tables →
        ((i : ℕ) → Contains order i ↔ IsTrue (U.is_live u i)) →
        AreNested (is_in_row_of tables kind) order }
{}

/// Each live axiom of an ontology, listed in its order, is a slot with a row over all slots.
pub fn live_have_rows<U: Universe>()
    ensures { (u : U) (tables : Tables) (kind : Kind) (order : List ℕ) →
        AreGenuine (U.symbols_of u) (U.is_local u) (U.is_live u) (U.slot_count u) tables →
        ((i : ℕ) → Contains order i ↔ IsTrue (U.is_live u i)) →
        HaveRows tables kind (length (of_kind tables kind)) order }
{}

/// There is one table of genuine modules.
pub fn tables_are_one<U: Universe>()
    ensures { (u : U) (one other : Tables) →
        AreGenuine (U.symbols_of u) (U.is_local u) (U.is_live u) (U.slot_count u) one →
        AreGenuine (U.symbols_of u) (U.is_local u) (U.is_live u) (U.slot_count u) other → one ≡ other }
{}

/// Atoms are the classes of axioms with equal genuine modules, tautologies left out; each is numbered by its first axiom.
pub fn atoms_are_classes<A>()
    ensures tautology { (G : A → A → Bool) (order : List A) (a : A) → Contains order a →
        (atom_of G order a ≡ None) ↔ IsFalse (G a a) }
    ensures numbered { (G : A → A → Bool) (order : List A) (a : A) → Contains order a → IsTrue (G a a) →
        (k : ℕ) × (atom_of G order a ≡ Some k) × (k < length (firsts G order)) }
    ensures same { (G : A → A → Bool) (order : List A) (a b : A) → Contains order a → Contains order b →
        IsTrue (G a a) → IsTrue (G b b) →
        (atom_of G order a ≡ atom_of G order b) ↔ ((c : A) → Contains order c → G a c ≡ G b c) }
    ensures first { (G : A → A → Bool) (order : List A) (k : ℕ) (d : A) → k < length (firsts G order) →
        atom_of G order (slice_index_or (firsts G order) k d) ≡ Some k }
{}

/// Where genuine modules nest, an axiom depends on those axioms of atoms that are in its genuine module.
pub fn nested_depends<A>()
    ensures { (G : A → A → Bool) (order : List A) (a b : A) → AreNested G order → Contains order a → Contains order b →
        IsTrue (G b b) → IsTrue (depends G order a b) ↔ IsTrue (G a b) }
{}

/// An atom covers another on which it depends exactly where no axiom of a third atom stands between them.
pub fn covers_are_between<A>()
    ensures { (G : A → A → Bool) (order : List A) (a b : A) →
        IsTrue (covers G order a b) ↔ (IsTrue (depends_strictly G order a b) × ((c : A) → Contains order c →
        IsTrue (G c c) → IsTrue (depends_strictly G order a c) → IsFalse (depends_strictly G order c b))) }
{}

/// After a change, each axiom that it doesn't affect for a kind has as its genuine module of that kind the row that it
/// had before.
pub fn unaffected_stay()
    ensures { (change : Change) (tables : Tables) (kind : Kind) (i : ℕ) →
        IsChangeOfSlots change →
        ((side : Side) → IsAntitone (logic_of change.before.symbols (change.before.local side))) →
        ((side : Side) → IsAntitone (logic_of change.after.symbols (change.after.local side))) →
        ((k : ℕ) → IsTrue (change.after.live k) → k < change.slots) →
        AreGenuine change.before.symbols change.before.local change.before.live change.slots tables →
        IsTrue (change.after.live i) → IsFalse (affected change tables kind i) →
        IsGenuine kind change.after.symbols change.after.local change.after.live i (is_in_row_of tables kind i) }
{}
