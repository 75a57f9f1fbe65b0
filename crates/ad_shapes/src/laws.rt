ghost use Rattle.std.specs.Prelude.{◌≡◌, Bool, List, map};
ghost use Rattle.std.specs.List.{Contains};
ghost use Rattle.ad_shapes.specs.Shapes.{shape_of};

/// Where two lists of axioms go beside each other, and so do the genuine modules, their atoms look alike.
pub fn shapes_are_same<A, B>()
    ensures { (G : A → A → Bool) (H : B → B → Bool) (pairs : List (A × B)) →
        ((p q : A × B) → Contains pairs p → Contains pairs q → G p.0 q.0 ≡ H p.1 q.1) →
        shape_of G (map (λ p. p.0) pairs) ≡ shape_of H (map (λ p. p.1) pairs) }
{}
