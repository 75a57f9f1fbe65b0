ghost use Rattle.std.specs.Prelude.{◌≡◌, map};
ghost use Rattle.ad_locality.specs.Locality as table;
ghost use Rattle.ad_entity.specs.declared.entities.EntityKind.TheVariants as kinds;

use crate::names::{name_surely, property_surely};
use crate::ranges::range_surely;
use crate::table::{NONE_OF_ALL, both, either};
use ad_base::{Side, Word};
use ad_columns::{all_of, at_least, at_most, complement, enumeration, exactly, some_of};
use ad_locality::{EVERYTHING, NOTHING, Surely};
use ad_tree::{Class, EntityKind, Range, Seen};

/// What is sure of a class expression.
#[cycle(class_surely)]
#[tactic(auto, unfolding(ad_locality::specs::Locality::class_surely))]
pub fn class_surely<S: Seen>(side: Side, seen: &S, class: &Class) -> Surely
    ensures { result ≡ table.class_surely side (S.member seen.now) class.now }
{
    match class {
        Class::Named(name) => name_surely(side, seen, EntityKind::Class, name),
        Class::And(operands) => intersection(side, seen, operands.as_slice()),
        Class::Or(operands) => union(side, seen, operands.as_slice()),
        Class::Not(c) => complement(class_surely(side, seen, c.get())),
        Class::OneOf(individuals) => enumeration(individuals.as_slice()),
        Class::ObjSome(r, c) => {
            some_of(
                property_surely(side, seen, r),
                class_surely(side, seen, c.get()),
            )
        }
        Class::ObjAll(r, c) => {
            all_of(
                property_surely(side, seen, r),
                class_surely(side, seen, c.get()),
            )
        }
        Class::ObjValue(r, _) => property_surely(side, seen, r),
        Class::ObjSelf(r) => property_surely(side, seen, r),
        Class::ObjMin(n, r, None) => at_least(*n, property_surely(side, seen, r), EVERYTHING),
        Class::ObjMin(n, r, Some(c)) => at_least(
            *n,
            property_surely(side, seen, r),
            class_surely(side, seen, c.get()),
        ),
        Class::ObjMax(n, r, None) => at_most(*n, property_surely(side, seen, r), EVERYTHING),
        Class::ObjMax(n, r, Some(c)) => at_most(
            *n,
            property_surely(side, seen, r),
            class_surely(side, seen, c.get()),
        ),
        Class::ObjExact(n, r, None) => exactly(*n, property_surely(side, seen, r), EVERYTHING),
        Class::ObjExact(n, r, Some(c)) => exactly(
            *n,
            property_surely(side, seen, r),
            class_surely(side, seen, c.get()),
        ),
        Class::DataSome(r, d) => some_of(data_surely(side, seen, r), range_surely(side, seen, d)),
        Class::DataAll(r, d) => all_of(data_surely(side, seen, r), range_surely(side, seen, d)),
        Class::DataValue(r, _) => data_surely(side, seen, r),
        Class::DataMin(n, r, d) => {
            at_least(*n, data_surely(side, seen, r), filler_surely(side, seen, d))
        }
        Class::DataMax(n, r, d) => {
            at_most(*n, data_surely(side, seen, r), filler_surely(side, seen, d))
        }
        Class::DataExact(n, r, d) => {
            exactly(*n, data_surely(side, seen, r), filler_surely(side, seen, d))
        }
    }
}

// What is sure of the intersection of these classes.
#[cycle(class_surely)]
fn intersection<S: Seen>(side: Side, seen: &S, operands: &[Class]) -> Surely
    ensures { result ≡ table.intersection (map (table.class_surely side (S.member seen.now)) operands.now) }
{
    let mut found = NONE_OF_ALL;
    'operands: for operand in operands {
        found = both(found, class_surely(side, seen, operand));
    }
    found
}

// What is sure of the union of these classes.
#[cycle(class_surely)]
fn union<S: Seen>(side: Side, seen: &S, operands: &[Class]) -> Surely
    ensures { result ≡ table.union (map (table.class_surely side (S.member seen.now)) operands.now) }
{
    let mut found = NOTHING;
    'operands: for operand in operands {
        found = either(found, class_surely(side, seen, operand));
    }
    found
}

// What is sure of a data property.
pub(crate) fn data_surely<S: Seen>(side: Side, seen: &S, property: &Word) -> Surely
    ensures { result ≡ table.name_surely side (S.member seen.now) kinds.DataProperty property.now }
{
    name_surely(side, seen, EntityKind::DataProperty, property)
}

// A data cardinality without a filler counts everything.
fn filler_surely<S: Seen>(side: Side, seen: &S, filler: &Option<Range>) -> Surely
    ensures { result ≡ table.optional_range side (S.member seen.now) filler.now }
{
    match filler {
        None => EVERYTHING,
        Some(range) => range_surely(side, seen, range),
    }
}
