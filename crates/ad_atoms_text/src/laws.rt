ghost use Rattle.std.specs.Prelude.{ℕ, Bool, List, length, ◌^◌, ◌≤◌, ◌<◌};
ghost use Rattle.ad_shapes.specs.Shapes.{shape_of};
ghost use Rattle.ad_atoms_text.specs.AtomsText.{atoms_text};

/// A `u64` counts the bytes of the text that lists the atoms of at most 2^20 axioms.
pub fn atoms_text_fits<A>()
    ensures { (G : A → A → Bool) (order : List A) → length order ≤ 2 ^ 20 → length (atoms_text (shape_of G order)) < 2 ^ 64 }
{}
