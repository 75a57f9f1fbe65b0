ghost use Rattle.std.specs.Prelude.{◌≡◌, ◌↔◌, IsTrue, Bool};
ghost use Rattle.ad_base.specs.declared.limits.Side.{Side};
ghost use Rattle.ad_base.specs.declared.limits.Side.TheVariants as sides;
ghost use Rattle.ad_entity.specs.Entities.{same_entity};
ghost use Rattle.ad_locality.specs.Signature.{in_signature};
ghost use Rattle.ad_locality.specs.Locality.{local};
ghost use Rattle.ad_tree.specs.declared.axioms.Axiom.{Axiom};
ghost use Rattle.ad_entity.specs.declared.entities.Entity.{Entity};
ghost use Rattle.ad_theory.specs.Module.{IsAntitone};
ghost use Rattle.ad_syntax_laws.specs.OntologyLogic.{axiom_logic};

/// A law: an axiom that is local for some names is local for fewer, and of the names only those of its
/// own signature count.
pub fn local_for_fewer()
    ensures bottom { IsAntitone (axiom_logic sides.Bottom) }
    ensures top { IsAntitone (axiom_logic sides.Top) }
    ensures own { (side : Side) (S T : Entity → Bool) (a : Axiom) → ((e : Entity) → IsTrue (in_signature a e) → S e ≡ T e) → local side S a ≡ local side T a }
{}

/// A law: where an axiom's own entities are seen, the side makes no difference to whether it is local. So an axiom is
/// bottom-local for its own signature exactly where it is top-local for it, and tautologies need no kind.
pub fn side_of_own_signature()
    ensures own { (a : Axiom) → local sides.Bottom (in_signature a) a ≡ local sides.Top (in_signature a) a }
    ensures seen { (S : Entity → Bool) (a : Axiom) → ((e : Entity) → IsTrue (in_signature a e) → IsTrue (S e)) → local sides.Bottom S a ≡ local sides.Top S a }
{}

/// A law: the test of entities for equality decides it.
pub fn same_entity_decides()
    ensures { (a b : Entity) → IsTrue (same_entity a b) ↔ (a ≡ b) }
{}
