ghost use Rattle.std.specs.Prelude.{◌≡◌};
ghost use Rattle.ad_local.specs.Pairs.{both_of, either_of};

use ad_locality::Surely;

// An intersection of no operands, to which operands are added.
pub(crate) const NONE_OF_ALL: Surely = Surely {
    empty: false,
    whole: true,
    nonempty: false,
};

// The intersection of two: it isn't empty where one isn't and the other is everything.
pub(crate) fn both(a: Surely, b: Surely) -> Surely
    ensures { result ≡ both_of a b }
{
    Surely {
        empty: a.empty || b.empty,
        whole: a.whole && b.whole,
        nonempty: a.nonempty && b.whole || a.whole && b.nonempty,
    }
}

// The union of two.
pub(crate) fn either(a: Surely, b: Surely) -> Surely
    ensures { result ≡ either_of a b }
{
    Surely {
        empty: a.empty && b.empty,
        whole: a.whole || b.whole,
        nonempty: a.nonempty || b.nonempty,
    }
}
