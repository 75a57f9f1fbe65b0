//! What holds of the modules over a universe's slots. The law is the contract of a function that does nothing.

ghost use Rattle.std.specs.Prelude.{ℕ, Bool, List, Option, IsTrue};
ghost use Rattle.ad_base.specs.declared.limits.Kind.{Kind};
ghost use Rattle.ad_base.specs.declared.limits.Side.TheVariants as sides;
ghost use Rattle.ad_entity.specs.declared.entities.Entity.{Entity};
ghost use Rattle.ad_theory.specs.Kinds.{IsListedOfKind};
ghost use Rattle.ad_theory.specs.Numbers.{IsNumberedModule};
ghost use Rattle.ad_tree.specs.declared.axioms.Noted.{Noted};
ghost use Rattle.ad_syntax_laws.specs.OntologyLogic.{axiom_logic};
ghost use Rattle.ad_slots.specs.Held.{Held};
ghost use Rattle.ad_slots.specs.Places.{is_held, held_symbols, is_held_local};
ghost use Rattle.ad_flat.specs.Trees.{ArePlaced, IsSameSeed, axioms_where};

/// The module over the slots, for the numbers of a seed, is the module of the axioms that they hold, for the seed. The
/// axioms are listed in the order of the ontology, wherever their slots are.
pub fn modules_of_trees()
    ensures { (number : Entity → Option ℕ) (slots : List (Option Held)) (places : List ℕ) (axioms : List Noted) (kind : Kind) (names : Entity → Bool) (seed M S : ℕ → Bool) →
        ArePlaced number slots places axioms → IsSameSeed number axioms names seed →
        IsNumberedModule kind (held_symbols slots) (is_held_local slots) seed (λ i. IsTrue (is_held slots i)) M S →
        IsListedOfKind kind (axiom_logic sides.Bottom) (axiom_logic sides.Top) names axioms (axioms_where M places axioms) }
{}
