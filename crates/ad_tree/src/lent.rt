ghost use Rattle.std.specs.Prelude.{◌≡◌};
ghost use Rattle.ad_tree.specs.declared.axioms.Noted.{Noted};
ghost use Rattle.std.specs.Arc.{arc_value};

use crate::axioms::Noted;
use crate::edits::Op;
use std::sync::Arc;

/// What lends an axiom: the axiom itself, an operation on it, or one of its owners.
pub trait Lent {
    ghost lent: { Self → Noted };

    /// The axiom.
    fn noted(&self) -> &Noted
        ensures { result.now ≡ lent self.now };
}

impl Lent for Noted {
    ghost lent = { λ noted. noted };

    fn noted(&self) -> &Noted {
        self
    }
}

impl Lent for Op {
    ghost lent = { λ op. op.noted };

    fn noted(&self) -> &Noted {
        &self.noted
    }
}

impl Lent for Arc<Noted> {
    ghost lent = { λ owner. arc_value owner };

    fn noted(&self) -> &Noted {
        self
    }
}
