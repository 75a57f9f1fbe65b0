//! The rows of the locality table in code: what is surely empty, surely everything and surely not empty, for each form of
//! expression, from what is sure of its parts.
#![tactic(auto)]

ghost use Rattle.std.specs.Prelude.{◌≡◌, false, cond};
ghost use Rattle.ad_locality.specs.Columns.{neither};
ghost use Rattle.ad_locality.specs.Locality as table;

use ad_base::Side;
use ad_locality::{EVERYTHING, INHABITED, NEITHER, NOTHING, Surely};

/// A name outside is read as empty on the bottom side, and as everything on the top side.
pub fn outside(side: Side) -> Surely
    ensures { result ≡ table.outside side }
{
    match side {
        Side::Bottom => NOTHING,
        Side::Top => EVERYTHING,
    }
}

/// Of a seen name nothing is sure, and any other is outside.
pub fn unless_seen(is_seen: bool, side: Side) -> Surely
    ensures { result ≡ cond is_seen neither (table.outside side) }
{
    if is_seen { NEITHER } else { outside(side) }
}

/// Not C: the first two columns change places.
pub fn complement(c: Surely) -> Surely
    ensures { result ≡ table.complement c }
{
    Surely {
        empty: c.whole,
        whole: c.empty,
        nonempty: c.empty,
    }
}

/// One of these members: it isn't empty where there is one.
pub fn enumeration<X>(members: &[X]) -> Surely
    ensures { result ≡ table.enumeration members.now }
{
    match members.first() {
        Some(_) => INHABITED,
        None => NEITHER,
    }
}

/// Some R C: everything where R relates all to all and C has a member.
pub fn some_of(r: Surely, c: Surely) -> Surely
    ensures { result ≡ table.some_of r c }
{
    let all = r.whole && c.nonempty;
    Surely {
        empty: r.empty || c.empty,
        whole: all,
        nonempty: all,
    }
}

/// All R C.
pub fn all_of(r: Surely, c: Surely) -> Surely
    ensures { result ≡ table.all_of r c }
{
    let all = r.empty || c.whole;
    Surely {
        empty: r.whole && c.empty,
        whole: all,
        nonempty: all,
    }
}

/// Min n R C: min 0 is everything.
pub fn at_least(n: u32, r: Surely, c: Surely) -> Surely
    ensures { result ≡ table.at_least n r c }
{
    if n == 0 {
        return EVERYTHING;
    }
    let all = n == 1 && r.whole && c.nonempty;
    Surely {
        empty: r.empty || c.empty,
        whole: all,
        nonempty: all,
    }
}

/// Max n R C.
pub fn at_most(n: u32, r: Surely, c: Surely) -> Surely
    ensures { result ≡ table.at_most n r c }
{
    let all = r.empty || c.empty;
    Surely {
        empty: n == 0 && r.whole && c.nonempty,
        whole: all,
        nonempty: all,
    }
}

/// Exact n R C: exact 0 is as max 0.
pub fn exactly(n: u32, r: Surely, c: Surely) -> Surely
    ensures { result ≡ table.exactly n r c }
{
    if n == 0 {
        return at_most(0, r, c);
    }
    Surely {
        empty: r.empty || c.empty,
        whole: false,
        nonempty: false,
    }
}

/// A restriction of a datatype by facets: no value need be left.
pub fn restricted(datatype: Surely) -> Surely
    ensures { result ≡ record { empty = datatype.empty; whole = false; nonempty = false } }
{
    Surely {
        empty: datatype.empty,
        whole: false,
        nonempty: false,
    }
}
