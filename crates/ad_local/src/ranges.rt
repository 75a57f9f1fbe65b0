ghost use Rattle.std.specs.Prelude.{◌≡◌, map};
ghost use Rattle.ad_locality.specs.Locality as table;

use crate::names::name_surely;
use crate::table::{NONE_OF_ALL, both, either};
use ad_base::Side;
use ad_columns::{complement, enumeration, restricted};
use ad_locality::{NOTHING, Surely};
use ad_tree::{EntityKind, Range, Seen};

/// What is sure of a data range.
#[cycle(range_surely)]
#[tactic(auto, unfolding(ad_locality::specs::Locality::range_surely))]
pub fn range_surely<S: Seen>(side: Side, seen: &S, range: &Range) -> Surely
    ensures { result ≡ table.range_surely side (S.member seen.now) range.now }
{
    match range {
        Range::Named(datatype) => name_surely(side, seen, EntityKind::Datatype, datatype),
        Range::And(operands) => intersection(side, seen, operands.as_slice()),
        Range::Or(operands) => union(side, seen, operands.as_slice()),
        Range::Not(operand) => complement(range_surely(side, seen, operand.get())),
        Range::OneOf(values) => enumeration(values.as_slice()),
        Range::Restriction(datatype, _) => {
            restricted(name_surely(side, seen, EntityKind::Datatype, datatype))
        }
    }
}

// What is sure of the intersection of these ranges.
#[cycle(range_surely)]
fn intersection<S: Seen>(side: Side, seen: &S, operands: &[Range]) -> Surely
    ensures { result ≡ table.intersection (map (table.range_surely side (S.member seen.now)) operands.now) }
{
    let mut found = NONE_OF_ALL;
    'operands: for operand in operands {
        found = both(found, range_surely(side, seen, operand));
    }
    found
}

// What is sure of the union of these ranges.
#[cycle(range_surely)]
fn union<S: Seen>(side: Side, seen: &S, operands: &[Range]) -> Surely
    ensures { result ≡ table.union (map (table.range_surely side (S.member seen.now)) operands.now) }
{
    let mut found = NOTHING;
    'operands: for operand in operands {
        found = either(found, range_surely(side, seen, operand));
    }
    found
}
