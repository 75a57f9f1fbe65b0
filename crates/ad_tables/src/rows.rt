ghost use Rattle.std.specs.Prelude.{◌≡◌, ◌<◌, None, Some, length, replicate, set, IfOk};
ghost use Rattle.std.specs.Option.{option_map};
ghost use Rattle.std.specs.Arc.{arc_value};
ghost use Rattle.ad_tables.specs.Rows.{rows_in, row_of, without_rows, with_row, of_kind};

use ad_base::{Kind, Memory};
use ad_bits::Row;
use std::alloc::Global;
use std::marker::Model;
use std::sync::Arc;

/// For each kind a row of each slot that has one: the genuine module of the slot's axiom, where its axiom is alive.
/// Slots can share a row.
#[derive(Drop)]
pub struct Rows {
    bottom: Vec<Option<Arc<Row>>>,
    top: Vec<Option<Arc<Row>>>,
    star: Vec<Option<Arc<Row>>>,
}

impl Model for Rows {
    ghost use Rattle.std.specs.Prelude.{◌≡◌, ◌<◌, ◌^◌, length};
    ghost use Rattle.ad_tables.specs.Rows.{Tables, rows_in};

    ghost Value = { Tables };

    ghost view = { λ rows. record { bottom = rows_in rows.bottom.items; top = rows_in rows.top.items; star = rows_in rows.star.items } };

    ghost invariant = { λ rows. (length rows.bottom.items < 2 ^ 32) × (length rows.top.items ≡ length rows.bottom.items)
        × (length rows.star.items ≡ length rows.bottom.items) };
}

// So many slots without a row.
fn no_rows(alloc: Global, slots: u32) -> Result<Vec<Option<Arc<Row>>>, Memory>
    ensures { IfOk result (λ rows. rows.items ≡ replicate slots None) }
{
    let mut rows = Vec::with_capacity(alloc, slots as usize)?;
    for _ in 0..slots {
        rows.push(None)?;
    }
    Ok(rows)
}

// Gives the slot this row.
fn put(rows: &mut Vec<Option<Arc<Row>>>, slot: u32, row: Arc<Row>)
    requires { slot < length rows.old.items }
    ensures { rows_in rows.new.items ≡ set (rows_in rows.old.items) slot (Some (arc_value row)) }
{
    rows[slot as usize] = Some(row);
}

impl Rows {
    /// No slot has a row.
    pub fn new(alloc: Global, slots: u32) -> Result<Rows, Memory>
        ensures { IfOk result (λ rows. rows ≡ without_rows slots) }
    {
        Ok(Rows {
            bottom: no_rows(alloc, slots)?,
            top: no_rows(alloc, slots)?,
            star: no_rows(alloc, slots)?,
        })
    }

    /// How many slots there are.
    pub fn slots(&self) -> u32
        ensures { (kind : Kind) → length (of_kind self.now kind) ≡ result }
    {
        self.bottom.len() as u32
    }

    // The slots' rows of the kind.
    fn of_kind(&self, kind: Kind) -> &[Option<Arc<Row>>]
        ensures { rows_in result.now ≡ of_kind self.now kind }
    {
        match kind {
            Kind::Bottom => &self.bottom,
            Kind::Top => &self.top,
            Kind::Star => &self.star,
        }
    }

    /// The row of the kind of a slot; None exactly where it has none.
    pub fn row(&self, kind: Kind, slot: u32) -> Option<&Row>
        ensures { option_map (λ row. row.now) result ≡ row_of self.now kind slot }
    {
        match self.of_kind(kind).get(slot as usize) {
            Some(Some(row)) => Some(row),
            _ => None,
        }
    }

    /// The row of the kind of a slot, shared with these rows; None exactly where it has none.
    pub fn share(&self, kind: Kind, slot: u32) -> Result<Option<Arc<Row>>, Memory>
        ensures { IfOk result (λ row. option_map (λ row. arc_value row) row ≡ row_of self.now kind slot) }
    {
        match self.of_kind(kind).get(slot as usize) {
            Some(Some(row)) => Ok(Some(Arc::try_clone(row)?)),
            _ => Ok(None),
        }
    }

    /// Gives the slot this row of the kind.
    pub fn put(&mut self, kind: Kind, slot: u32, row: Arc<Row>)
        requires { slot < length (of_kind self.old kind) }
        ensures { self.new ≡ with_row self.old kind slot (arc_value row) }
    {
        match kind {
            Kind::Bottom => put(&mut self.bottom, slot, row),
            Kind::Top => put(&mut self.top, slot, row),
            Kind::Star => put(&mut self.star, slot, row),
        }
    }
}
