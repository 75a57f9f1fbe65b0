ghost use Rattle.std.specs.Prelude.{◌≡◌, ◌<◌, ℕ, Bool, List, Option, length, slice_index_or, slice_index, IsTrue};
ghost use Rattle.std.specs.List.{IsDistinct};
ghost use Rattle.ad_base.specs.declared.limits.Kind.{Kind};
ghost use Rattle.ad_decomposition.specs.Tables.{AreGenuine, is_in_row_of};
ghost use Rattle.ad_entity.specs.declared.entities.Entity.{Entity};
ghost use Rattle.ad_flat.specs.Trees.{ArePlaced};
ghost use Rattle.ad_ontology_atoms.specs.OntologyAtoms.{AreGenuineModules, IsShapeOf, ModulesHoldWholeAtoms};
ghost use Rattle.ad_shapes.specs.Shapes.{Shape, shape_of};
ghost use Rattle.ad_slots.specs.Held.{Held};
ghost use Rattle.ad_slots.specs.Places.{is_held, held_symbols, is_held_local};
ghost use Rattle.ad_syntax_laws.specs.OntologyModule.{logical};
ghost use Rattle.ad_tables.specs.Rows.{Tables};
ghost use Rattle.ad_tree.specs.Same.{same_axiom};
ghost use Rattle.ad_tree.specs.declared.axioms.Noted.{Noted};

/// The rows over slots are the genuine modules of the axioms that the slots hold.
pub fn rows_are_genuine()
    ensures { (number : Entity → Option ℕ) (slots : List (Option Held)) (places : List ℕ) (ontology : List Noted) (kind : Kind) (n : ℕ) (tables : Tables) →
        ArePlaced number slots places (logical ontology) → IsDistinct same_axiom (logical ontology) →
        AreGenuine (held_symbols slots) (is_held_local slots) (is_held slots) n tables →
        (G : Noted → Noted → Bool) × AreGenuineModules kind ontology G
        × ((i j : ℕ) (d : Noted) → i < length places → j < length places →
        G (slice_index_or (logical ontology) i d) (slice_index_or (logical ontology) j d)
        ≡ is_in_row_of tables kind (slice_index places i) (slice_index places j)) }
{}

/// The atoms of the rows over slots are those of the ontology whose axioms the slots hold.
pub fn shapes_of_slots()
    ensures { (number : Entity → Option ℕ) (slots : List (Option Held)) (places : List ℕ) (ontology : List Noted) (kind : Kind) (n : ℕ) (tables : Tables) →
        ArePlaced number slots places (logical ontology) → IsDistinct same_axiom (logical ontology) →
        AreGenuine (held_symbols slots) (is_held_local slots) (is_held slots) n tables →
        IsShapeOf kind ontology (shape_of (is_in_row_of tables kind) places) }
{}

/// Each ontology has its genuine modules of a kind, and so its atoms.
pub fn shape_exists()
    ensures { (kind : Kind) (ontology : List Noted) → (shape : Shape) × IsShapeOf kind ontology shape }
{}

/// An ontology's atoms of a kind look in one way.
pub fn one_shape()
    ensures { (kind : Kind) (ontology : List Noted) (one other : Shape) →
        IsShapeOf kind ontology one → IsShapeOf kind ontology other → one ≡ other }
{}

/// Where an axiom of an atom is in a module of the same kind, for whatever seed, all axioms of that atom are.
pub fn whole_atoms()
    ensures { ModulesHoldWholeAtoms }
{}
