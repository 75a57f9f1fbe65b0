ghost use Rattle.std.specs.Prelude.{◌≡◌, ◌<◌, ℕ, Bool, Option, IfSome};
ghost use Rattle.ad_tree.specs.declared.axioms.Noted.{Noted};

use ad_tree::Noted;

/// Which axioms of an ontology in slots a document has.
pub trait Choice {
    // slots below this one may be asked for
    ghost reach: { Self → ℕ };

    // whether an axiom with this slot, if it has one, is in the document
    ghost takes: { Self → Noted → Option ℕ → Bool };

    /// Whether an axiom with this slot, if it has one, is in the document.
    fn takes(&self, noted: &Noted, slot: Option<u32>) -> bool
        requires { IfSome slot (λ i. i < reach self.now) }
        ensures { result ≡ takes self.now noted.now slot };
}
