ghost use Rattle.std.specs.Prelude.{◌≡◌, ◌∷◌, []};
ghost use Rattle.ad_codes.specs.Encoded.{cell_of, name_cell, property_cell};
ghost use Rattle.ad_codes.specs.Encoding.{Adds};

use crate::buffer::Buffer;
use ad_base::Word;
use ad_cells::Cell;
use ad_entity::{EntityKind, Naming};
use ad_locality::{Surely, standing};
use ad_tree::ObjProp;

// The cell of a name: what is sure of it where it is built in, or its number, where it has one.
fn cell_of(known: Option<Surely>, number: Option<u32>) -> Cell
    ensures { result ≡ cell_of known number }
{
    match known {
        Some(surely) => Cell::Known(surely),
        None => match number {
            Some(n) => Cell::Symbol(n),
            None => Cell::Outside,
        },
    }
}

// The cell of a name in the position of its kind.
fn name_cell<N: Naming>(kind: EntityKind, name: &Word, names: &N) -> Cell
    ensures { result ≡ name_cell (N.number_of names.now) kind name.now }
{
    cell_of(standing(kind, name), names.number(kind, name))
}

// The cell of an object property: an inverse is as its property.
fn property_cell<N: Naming>(property: &ObjProp, names: &N) -> Cell
    ensures { result ≡ property_cell (N.number_of names.now) property.now }
{
    match property {
        ObjProp::Named(name) => name_cell(EntityKind::ObjectProperty, name, names),
        ObjProp::Inverse(name) => name_cell(EntityKind::ObjectProperty, name, names),
    }
}

// Puts the cell of a name.
pub(crate) fn put_name<N: Naming>(kind: EntityKind, name: &Word, names: &N, out: &mut Buffer)
    ensures { Adds out.old out.new (name_cell (N.number_of names.now) kind name.now ∷ []) }
{
    out.put(name_cell(kind, name, names));
}

// Puts the cell of an object property.
pub(crate) fn put_property<N: Naming>(property: &ObjProp, names: &N, out: &mut Buffer)
    ensures { Adds out.old out.new (property_cell (N.number_of names.now) property.now ∷ []) }
{
    out.put(property_cell(property, names));
}
