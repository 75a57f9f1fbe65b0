//! Syntactic locality on the top side: the names that are neither built in nor seen are read as everything.
#![tactic(auto)]

ghost use Rattle.std.specs.Prelude.{◌≡◌, IsTrue};
ghost use Rattle.ad_base.specs.declared.limits.Side.TheVariants as sides;
ghost use Rattle.ad_tree.specs.Logical.{is_logical};
ghost use Rattle.ad_locality.specs.Locality.{local};

use ad_base::Side;
use ad_local::is_local;
use ad_tree::{Axiom, Seen};

/// Whether a logical axiom is local for the seen names on the top side.
pub fn local_top<S: Seen>(axiom: &Axiom, seen: &S) -> bool
    requires { IsTrue (is_logical axiom.now) }
    ensures { result ≡ local sides.Top (S.member seen.now) axiom.now }
{
    is_local(Side::Top, axiom, seen)
}
