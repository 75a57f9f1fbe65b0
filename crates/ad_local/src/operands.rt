ghost use Rattle.std.specs.Prelude.{◌≡◌, ◌||◌, Bool, map};
ghost use Rattle.std.specs.List.{list_any, list_all};
ghost use Rattle.ad_locality.specs.Locality as table;
ghost use Rattle.ad_entity.specs.declared.entities.Entity.{Entity};
ghost use Rattle.ad_entity.specs.declared.entities.EntityKind.TheVariants as kinds;

use crate::classes::{class_surely, data_surely};
use crate::names::property_surely;
use crate::ranges::range_surely;
use ad_base::{Side, Word};
use ad_locality::Surely;
use ad_tree::{Class, ObjProp, Range, Seen};

// What an axiom speaks of: a class, a range, an object property, or a data property by its name.
pub(crate) trait Operand {
    ghost use Rattle.ad_base.specs.declared.limits.Side.{Side};
    ghost use Rattle.ad_locality.specs.declared.surely.Surely.{Surely};

    ghost surely_of: { Side → (Entity → Bool) → Self → Surely };

    // What is sure of it.
    fn surely<S: Seen>(&self, side: Side, seen: &S) -> Surely
        ensures { result ≡ surely_of side (S.member seen.now) self.now };
}

impl Operand for Class {
    ghost surely_of = { table.class_surely };

    fn surely<S: Seen>(&self, side: Side, seen: &S) -> Surely {
        class_surely(side, seen, self)
    }
}

impl Operand for Range {
    ghost surely_of = { table.range_surely };

    fn surely<S: Seen>(&self, side: Side, seen: &S) -> Surely {
        range_surely(side, seen, self)
    }
}

impl Operand for ObjProp {
    ghost surely_of = { table.property_surely };

    fn surely<S: Seen>(&self, side: Side, seen: &S) -> Surely {
        property_surely(side, seen, self)
    }
}

impl Operand for Word {
    ghost surely_of = { λ side seen. table.name_surely side seen kinds.DataProperty };

    fn surely<S: Seen>(&self, side: Side, seen: &S) -> Surely {
        data_surely(side, seen, self)
    }
}

// The first is surely empty, or the second everything.
pub(crate) fn is_below<S: Seen, A: Operand, B: Operand>(
    side: Side,
    seen: &S,
    sub: &A,
    super_: &B,
) -> bool
    ensures { result ≡ ((A.surely_of side (S.member seen.now) sub.now).empty || (B.surely_of side (S.member seen.now) super_.now).whole) }
{
    sub.surely(side, seen).empty || super_.surely(side, seen).whole
}

// Both are surely empty, or both everything.
pub(crate) fn both_or_neither(a: Surely, b: Surely) -> bool
    ensures { result ≡ table.both_or_neither a b }
{
    a.empty && b.empty || a.whole && b.whole
}

// All are surely empty.
pub(crate) fn all_empty<S: Seen, T: Operand>(side: Side, seen: &S, operands: &[T]) -> bool
    ensures { result ≡ list_all (λ operand. (T.surely_of side (S.member seen.now) operand).empty) operands.now }
{
    operands
        .iter()
        .all(|operand| operand.surely(side, seen).empty)
}

// All are surely everything.
pub(crate) fn all_whole<S: Seen, T: Operand>(side: Side, seen: &S, operands: &[T]) -> bool
    ensures { result ≡ list_all (λ operand. (T.surely_of side (S.member seen.now) operand).whole) operands.now }
{
    operands
        .iter()
        .all(|operand| operand.surely(side, seen).whole)
}

// Some operand is surely empty.
pub(crate) fn any_empty<S: Seen, T: Operand>(side: Side, seen: &S, operands: &[T]) -> bool
    ensures { result ≡ list_any (λ operand. (T.surely_of side (S.member seen.now) operand).empty) operands.now }
{
    operands
        .iter()
        .any(|operand| operand.surely(side, seen).empty)
}

// All are surely empty, or all everything, or there is one.
#[tactic(auto, using(crate::proofs::OperandLemmas::are_equivalent_map))]
pub(crate) fn are_equivalent<S: Seen, T: Operand>(side: Side, seen: &S, operands: &[T]) -> bool
    ensures { result ≡ table.are_equivalent (map (T.surely_of side (S.member seen.now)) operands.now) }
{
    all_empty(side, seen, operands) || all_whole(side, seen, operands) || operands.len() == 1
}

// At most one, by position, isn't surely empty.
pub(crate) fn are_disjoint<S: Seen, T: Operand>(side: Side, seen: &S, operands: &[T]) -> bool
    ensures { result ≡ table.are_disjoint (map (T.surely_of side (S.member seen.now)) operands.now) }
{
    let mut met = false;
    'operands: for operand in operands {
        if !operand.surely(side, seen).empty {
            if met {
                return false;
            }
            met = true;
        }
    }
    true
}

// One is surely everything, and all others, by position, are empty.
pub(crate) fn one_is_whole<S: Seen, T: Operand>(side: Side, seen: &S, operands: &[T]) -> bool
    ensures { result ≡ table.one_is_whole (map (T.surely_of side (S.member seen.now)) operands.now) }
{
    // whether all so far are empty, and whether one so far is everything and all others are empty
    let mut none = true;
    let mut one = false;
    'operands: for operand in operands {
        let surely = operand.surely(side, seen);
        one = one && surely.empty || none && surely.whole;
        none = none && surely.empty;
    }
    one
}
