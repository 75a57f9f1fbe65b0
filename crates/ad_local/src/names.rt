ghost use Rattle.std.specs.Prelude.{◌≡◌};
ghost use Rattle.ad_locality.specs.Locality as table;

use ad_base::{Side, Word};
use ad_columns::unless_seen;
use ad_locality::{Surely, standing};
use ad_tree::{EntityKind, ObjProp, Seen};

/// What is sure of a name in the position of its kind: a built-in name is what it is, of a seen name
/// nothing is sure, and any other is outside.
pub fn name_surely<S: Seen>(side: Side, seen: &S, kind: EntityKind, name: &Word) -> Surely
    ensures { result ≡ table.name_surely side (S.member seen.now) kind name.now }
{
    match standing(kind, name) {
        Some(surely) => surely,
        None => unless_seen(seen.has(kind, name), side),
    }
}

/// What is sure of an object property: an inverse is as its property.
pub fn property_surely<S: Seen>(side: Side, seen: &S, property: &ObjProp) -> Surely
    ensures { result ≡ table.property_surely side (S.member seen.now) property.now }
{
    match property {
        ObjProp::Named(name) => name_surely(side, seen, EntityKind::ObjectProperty, name),
        ObjProp::Inverse(name) => name_surely(side, seen, EntityKind::ObjectProperty, name),
    }
}
