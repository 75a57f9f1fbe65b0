//! What holds of modules, whatever axioms, entities and locality are. Each law is the contract of a function that
//! does nothing. `L`, `B` and `T` are logics, `B` for the bottom side and `T` for the top side; `same` is a test of
//! equality on axioms.

ghost use Rattle.std.specs.Prelude.{◌≡◌, ◌↔◌, ℕ, Bool, List, IsTrue};
ghost use Rattle.std.specs.List.{Contains, IsDistinct};
ghost use Rattle.ad_base.specs.declared.limits.Kind.{Kind};
ghost use Rattle.ad_base.specs.declared.limits.Side.{Side};
ghost use Rattle.ad_theory.specs.Alternation.{IsLeftAfterRounds};
ghost use Rattle.ad_theory.specs.Change.{IsChange, IsUntouched, IsStarUntouched};
ghost use Rattle.ad_theory.specs.Module.{Logic, IsAntitone, IsModule, IsStar};
ghost use Rattle.ad_theory.specs.Kinds.{IsListedOfKind};
ghost use Rattle.ad_theory.specs.Listed.{IsListedModule, IsListedStar, IsLiteralModule, IsEqualityTest};
ghost use Rattle.ad_theory.specs.Numbers.{logic_of, IsNumberedModule};
ghost use Rattle.ad_theory.specs.Genuine.{IsGenuine, IsNoTautology};

use crate::universe::Universe;

/// The listed module is the module in plain words.
pub fn literal<A, E>()
    ensures { (L : Logic A E) (same : A → A → Bool) (seed : E → Bool) (O M : List A) → IsAntitone L →
        IsEqualityTest same → IsDistinct same O →
        IsListedModule L seed O M ↔ IsLiteralModule L seed O M }
{}

/// An ontology has exactly one module for a seed.
pub fn once<A, E>()
    ensures exists { (L : Logic A E) (same : A → A → Bool) (seed : E → Bool) (O : List A) → IsAntitone L →
        IsEqualityTest same → (M : List A) × IsListedModule L seed O M }
    ensures one { (L : Logic A E) (seed : E → Bool) (O M N : List A) → IsListedModule L seed O M →
        IsListedModule L seed O N → M ≡ N }
{}

/// The module grows with the seed and with the ontology.
pub fn grows<A, E>()
    ensures { (L : Logic A E) (seed more : E → Bool) (O P M N : List A) →
        ((e : E) → IsTrue (seed e) → IsTrue (more e)) →
        ((a : A) → Contains O a → Contains P a) → IsListedModule L seed O M →
        IsListedModule L more P N → (a : A) → Contains M a → Contains N a }
{}

/// A module is its own module.
pub fn own<A, E>()
    ensures { (L : Logic A E) (seed : E → Bool) (O M : List A) → IsAntitone L →
        IsListedModule L seed O M → IsListedModule L seed M M }
{}

/// An ontology has exactly one star module for a seed.
pub fn star_once<A, E>()
    ensures exists { (B T : Logic A E) (same : A → A → Bool) (seed : E → Bool) (O : List A) → IsAntitone B →
        IsAntitone T → IsEqualityTest same → (M : List A) × IsListedStar B T seed O M }
    ensures one { (B T : Logic A E) (seed : E → Bool) (O M N : List A) → IsListedStar B T seed O M →
        IsListedStar B T seed O N → M ≡ N }
{}

/// Alternating from the whole ontology down, the bottom module first, ends in the star module.
pub fn alternation<A, E>()
    // some rounds leave a part whose bottom module is its own top module
    ensures ends { (B T : Logic A E) (same : A → A → Bool) (seed : E → Bool) (O : List A) → IsAntitone B →
        IsAntitone T → IsEqualityTest same →
        (X M : List A) × IsLeftAfterRounds B T seed O X × IsListedModule B seed X M × IsListedModule T seed M M }

    // whenever rounds leave such a part, that module is the star module
    ensures star { (B T : Logic A E) (same : A → A → Bool) (seed : E → Bool) (O X M : List A) →
        IsAntitone B → IsEqualityTest same → IsLeftAfterRounds B T seed O X →
        IsListedModule B seed X M → IsListedModule T seed M M → IsListedStar B T seed O M }
{}

/// A bottom or top module that a change leaves alone is the module of the changed ontology.
pub fn side_kept<A, E>()
    ensures { (L L' : Logic A E) (O O' left new M : A → Bool) (seed S : E → Bool) → IsAntitone L →
        IsChange L L' (λ a. IsTrue (O a)) (λ a. IsTrue (O' a)) left new →
        IsModule L seed (λ a. IsTrue (O a)) M S →
        IsUntouched L' (λ a. IsTrue (O' a)) left new M S →
        IsModule L' seed (λ a. IsTrue (O' a)) M S }
{}

/// A star module that a change leaves alone is the star module of the changed ontology. `X` and `Y` are the bottom
/// and the top module of the ontology before.
pub fn star_kept<A, E>()
    ensures { (B B' T T' : Logic A E) (O O' left new M X Y : A → Bool) (seed S R : E → Bool) →
        IsAntitone B → IsAntitone T → IsAntitone B' → IsAntitone T' →
        IsChange B B' (λ a. IsTrue (O a)) (λ a. IsTrue (O' a)) left new →
        IsChange T T' (λ a. IsTrue (O a)) (λ a. IsTrue (O' a)) left new →
        IsStar B T seed (λ a. IsTrue (O a)) M → IsModule B seed (λ a. IsTrue (O a)) X S →
        IsModule T seed (λ a. IsTrue (O a)) Y R →
        IsStarUntouched B B' T T' (λ a. IsTrue (O' a)) left new seed M X Y →
        IsStar B' T' seed (λ a. IsTrue (O' a)) M }
{}

/// Over any universe there is, for each kind and seed, exactly one module of the live slots within a set; and on a side
/// it grows with the seed and with that set.
pub fn numbered<U: Universe>()
    ensures exists { (u : U) (kind : Kind) (seed within : ℕ → Bool) → (M : ℕ → Bool) × (S : ℕ → Bool) ×
        IsNumberedModule kind (U.symbols_of u) (U.is_local u) seed (λ i. IsTrue (U.is_live u i) × IsTrue (within i)) M S }
    ensures one { (u : U) (kind : Kind) (seed within M N S R : ℕ → Bool) →
        IsNumberedModule kind (U.symbols_of u) (U.is_local u) seed (λ i. IsTrue (U.is_live u i) × IsTrue (within i)) M S →
        IsNumberedModule kind (U.symbols_of u) (U.is_local u) seed (λ i. IsTrue (U.is_live u i) × IsTrue (within i)) N R →
        (i : ℕ) → IsTrue (M i) ↔ IsTrue (N i) }
    ensures grows { (u : U) (side : Side) (seed more within wider M N S R : ℕ → Bool) →
        ((s : ℕ) → IsTrue (seed s) → IsTrue (more s)) → ((i : ℕ) → IsTrue (within i) → IsTrue (wider i)) →
        IsModule (logic_of (U.symbols_of u) (U.is_local u side)) seed (λ i. IsTrue (U.is_live u i) × IsTrue (within i)) M S →
        IsModule (logic_of (U.symbols_of u) (U.is_local u side)) more (λ i. IsTrue (U.is_live u i) × IsTrue (wider i)) N R →
        (i : ℕ) → IsTrue (M i) → IsTrue (N i) }
{}

/// A module, on a side or star, has for any seed the module for the signature of each of its axioms. The signatures on
/// both sides are the same.
pub fn nested<A, E>()
    ensures side { (L : Logic A E) (O M N : A → Bool) (seed S R : E → Bool) (a : A) →
        IsModule L seed (λ b. IsTrue (O b)) M S → IsTrue (M a) →
        IsModule L (L.sig a) (λ b. IsTrue (O b)) N R → (b : A) → IsTrue (N b) → IsTrue (M b) }
    ensures star { (B T : Logic A E) (O M N : A → Bool) (seed : E → Bool) (a : A) →
        ((b : A) (e : E) → B.sig b e ≡ T.sig b e) →
        IsStar B T seed (λ b. IsTrue (O b)) M → IsTrue (M a) →
        IsStar B T (B.sig a) (λ b. IsTrue (O b)) N → (b : A) → IsTrue (N b) → IsTrue (M b) }
    ensures listed { (kind : Kind) (B T : Logic A E) (O M N : List A) (seed : E → Bool) (a : A) →
        ((b : A) (e : E) → B.sig b e ≡ T.sig b e) →
        IsListedOfKind kind B T seed O M → Contains M a →
        IsListedOfKind kind B T (B.sig a) O N → (b : A) → Contains N b → Contains M b }
{}

/// Over any universe a module, of any kind and for any seed, has the genuine module of each of its axioms. So two axioms
/// that are in the genuine modules of each other have the same one.
pub fn genuine_nested<U: Universe>()
    ensures { (u : U) (kind : Kind) (seed : ℕ → Bool) (k : ℕ) (M N S : ℕ → Bool) →
        IsNumberedModule kind (U.symbols_of u) (U.is_local u) seed (λ i. IsTrue (U.is_live u i)) M S → IsTrue (M k) →
        IsGenuine kind (U.symbols_of u) (U.is_local u) (U.is_live u) k N →
        (j : ℕ) → IsTrue (N j) → IsTrue (M j) }
{}

/// A live axiom is in its own genuine module exactly where it is no tautology.
pub fn tautologies<U: Universe>()
    ensures { (u : U) (kind : Kind) (i : ℕ) (M : ℕ → Bool) → IsTrue (U.is_live u i) →
        IsGenuine kind (U.symbols_of u) (U.is_local u) (U.is_live u) i M →
        IsTrue (M i) ↔ IsNoTautology kind (U.symbols_of u) (U.is_local u) i }
{}
