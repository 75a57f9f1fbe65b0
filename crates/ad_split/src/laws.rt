ghost use Rattle.std.specs.Prelude.{◌≡◌, Bool, List, IsTrue};
ghost use Rattle.std.specs.List.{Contains};
ghost use Rattle.ad_split.specs.Tops.{tops};

/// Each axiom of an atom is in some part, and no part lies in another.
pub fn parts_cover<A>()
    ensures cover { (G : A → A → Bool) (order : List A) (a : A) → Contains order a → IsTrue (G a a) →
        (top : A) × Contains (tops G order) top × IsTrue (G top a) }
    ensures apart { (G : A → A → Bool) (order : List A) (a b : A) → Contains (tops G order) a → Contains (tops G order) b →
        ((c : A) → Contains order c → IsTrue (G a c) → IsTrue (G b c)) → a ≡ b }
{}
