ghost use Rattle.std.specs.Prelude.{◌≡◌, ◌∷◌, ◌++◌, [], length};
ghost use Rattle.std.specs.List.{flat_map};
ghost use Rattle.ad_cells.specs.declared.cell.Cell.TheVariants as cells;
ghost use Rattle.ad_entity.specs.declared.entities.EntityKind.TheVariants as kinds;
ghost use Rattle.ad_codes.specs.Encoded.{name_cell, range_code, optional_range_code};
ghost use Rattle.ad_codes.specs.Encoding.{Adds};

use crate::buffer::Buffer;
use crate::names::put_name;
use ad_base::Word;
use ad_cells::Cell;
use ad_columns::enumeration;
use ad_entity::{EntityKind, Naming};
use ad_locality::EVERYTHING;
use ad_tree::Range;

// Puts the code of a data range.
#[cycle(put_range)]
pub(crate) fn put_range<N: Naming>(range: &Range, names: &N, out: &mut Buffer)
    ensures { Adds out.old out.new (range_code (N.number_of names.now) range.now) }
{
    match range {
        Range::Named(datatype) => put_name(EntityKind::Datatype, datatype, names, out),
        Range::And(operands) => put_intersection(operands.as_slice(), names, out),
        Range::Or(operands) => put_union(operands.as_slice(), names, out),
        Range::Not(operand) => put_complement(operand.get(), names, out),
        Range::OneOf(values) => out.put(Cell::Known(enumeration(values.as_slice()))),
        Range::Restriction(datatype, _) => put_restricted(datatype, names, out),
    }
}

// Puts the codes of data ranges, one after another.
#[cycle(put_range)]
fn put_ranges<N: Naming>(operands: &[Range], names: &N, out: &mut Buffer)
    ensures { Adds out.old out.new (flat_map (range_code (N.number_of names.now)) operands.now) }
{
    'operands: for operand in operands {
        put_range(operand, names, out);
    }
}

// Puts the code of the intersection of these data ranges.
#[cycle(put_range)]
fn put_intersection<N: Naming>(operands: &[Range], names: &N, out: &mut Buffer)
    ensures { Adds out.old out.new (flat_map (range_code (N.number_of names.now)) operands.now ++ cells.And (length operands.now) ∷ []) }
{
    put_ranges(operands, names, out);
    let count = out.count(operands.len());
    out.put(Cell::And(count));
}

// Puts the code of the union of these data ranges.
#[cycle(put_range)]
fn put_union<N: Naming>(operands: &[Range], names: &N, out: &mut Buffer)
    ensures { Adds out.old out.new (flat_map (range_code (N.number_of names.now)) operands.now ++ cells.Or (length operands.now) ∷ []) }
{
    put_ranges(operands, names, out);
    let count = out.count(operands.len());
    out.put(Cell::Or(count));
}

// Puts the code of what isn't in a data range.
#[cycle(put_range)]
fn put_complement<N: Naming>(operand: &Range, names: &N, out: &mut Buffer)
    ensures { Adds out.old out.new (range_code (N.number_of names.now) operand.now ++ cells.Not ∷ []) }
{
    put_range(operand, names, out);
    out.put(Cell::Not);
}

// Puts the code of a datatype that is restricted by facets.
fn put_restricted<N: Naming>(datatype: &Word, names: &N, out: &mut Buffer)
    ensures { Adds out.old out.new (name_cell (N.number_of names.now) kinds.Datatype datatype.now ∷ cells.Restricted ∷ []) }
{
    put_name(EntityKind::Datatype, datatype, names, out);
    out.put(Cell::Restricted);
}

// Puts the code of the filler of a data cardinality: without one it counts everything.
pub(crate) fn put_optional_range<N: Naming>(filler: &Option<Range>, names: &N, out: &mut Buffer)
    ensures { Adds out.old out.new (optional_range_code (N.number_of names.now) filler.now) }
{
    match filler {
        None => out.put(Cell::Known(EVERYTHING)),
        Some(range) => put_range(range, names, out),
    }
}
