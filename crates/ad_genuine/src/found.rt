ghost use Rattle.std.specs.Prelude.{◌≡◌, ◌≤◌, ◌<◌, ◌+◌, ◌^◌, ◌++◌, [], length, map, slice_index_or, sum_by, IsTrue, IfOk, OnOk};
ghost use Rattle.std.specs.List.{All, flat_map};
ghost use Rattle.std.specs.Arc.{arc_value};
ghost use Rattle.ad_base.specs.declared.limits.Kind.{Kind};
ghost use Rattle.ad_base.specs.Limits.{AreWithinStandard};
ghost use Rattle.ad_theory.specs.Numbers.{AreSizesOf};
ghost use Rattle.ad_theory.specs.Tally.{IsRaisedBy};
ghost use Rattle.ad_genuine.specs.declared.found.Found.{Found};
ghost use Rattle.ad_genuine.specs.Found.{AreFound, rows_of_kind, runs_of};

use ad_base::{Kind, Limits, Memory, Side};
use ad_bits::Row;
use ad_joined::{side_rows, star_rows};
use ad_theory::{Tally, Universe};
use std::alloc::Global;
use std::sync::Arc;

// The rows that were found for some slots, of each kind in the order of the slots, and what was counted for them.
#[derive(Drop)]
pub(crate) struct Found {
    bottom: Vec<Arc<Row>>,
    top: Vec<Arc<Row>>,
    star: Vec<Arc<Row>>,
    pub(crate) tally: Tally,
}

// Finds the genuine modules of these slots, of all three kinds.
pub(crate) fn find<U: Universe>(
    alloc: Global,
    universe: &U,
    limits: &Limits,
    slots: &[u32],
) -> Result<Found, Memory>
    requires limits { AreWithinStandard limits.now }
    requires sizes { AreSizesOf limits.now (U.slot_count universe.now) (U.symbol_count universe.now) }
    requires live { All (λ slot. IsTrue (U.is_live universe.now slot)) slots.now }
    requires few { length slots.now ≤ 65536 }
    ensures { IfOk result (AreFound (U.symbols_of universe.now) (U.is_local universe.now) (U.is_live universe.now) (U.slot_count universe.now) slots.now) }
{
    let mut tally = Tally::new();
    let bottom = side_rows(alloc, universe, Side::Bottom, slots, &mut tally)?;
    let top = side_rows(alloc, universe, Side::Top, slots, &mut tally)?;
    let star = star_rows(alloc, universe, limits, slots, &bottom, &top, &mut tally)?;
    Ok(Found {
        bottom,
        top,
        star,
        tally,
    })
}

// The row at a place, shared.
fn share(rows: &[Arc<Row>], at: u32) -> Result<Arc<Row>, Memory>
    requires { at < length (map (λ row. arc_value row) rows.now) }
    ensures { IfOk result (λ row. arc_value row ≡ slice_index_or (map (λ row. arc_value row) rows.now) at []) }
{
    Ok(Arc::try_clone(&rows[at as usize])?)
}

impl Found {
    // What is found for no slots.
    fn nothing(alloc: Global) -> Found
        ensures rows { (kind : Kind) → rows_of_kind result kind ≡ [] }
        ensures runs { runs_of result ≡ 0 }
    {
        Found {
            bottom: Vec::new(alloc),
            top: Vec::new(alloc),
            star: Vec::new(alloc),
            tally: Tally::new(),
        }
    }

    // Appends what was found for further slots.
    fn append(&mut self, mut more: Found) -> Result<(), Memory>
        ensures rows { OnOk result ((kind : Kind) → rows_of_kind self.new kind ≡ rows_of_kind self.old kind ++ rows_of_kind more kind) }
        ensures runs { OnOk result (IsRaisedBy (runs_of more) (runs_of self.old) (runs_of self.new)) }
    {
        self.bottom.append(&mut more.bottom)?;
        self.top.append(&mut more.top)?;
        self.star.append(&mut more.star)?;
        self.tally.add(&more.tally);
        Ok(())
    }

    // The row of the kind at a place, shared.
    pub(crate) fn share(&self, kind: Kind, at: u32) -> Result<Arc<Row>, Memory>
        requires { at < length (rows_of_kind self.now kind) }
        ensures { IfOk result (λ row. arc_value row ≡ slice_index_or (rows_of_kind self.now kind) at []) }
    {
        match kind {
            Kind::Bottom => share(&self.bottom, at),
            Kind::Top => share(&self.top, at),
            Kind::Star => share(&self.star, at),
        }
    }
}

// What was found in all parts, in their order.
pub(crate) fn joined(alloc: Global, parts: Vec<Found>) -> Result<Found, Memory>
    ensures rows { IfOk result (λ found. (kind : Kind) → rows_of_kind found kind ≡ flat_map (λ part. rows_of_kind part kind) parts.items) }
    ensures runs { IfOk result (λ found. sum_by runs_of parts.items < 2 ^ 64 → runs_of found ≡ sum_by runs_of parts.items) }
{
    let mut all = Found::nothing(alloc);
    for part in parts {
        all.append(part)?;
    }
    Ok(all)
}
