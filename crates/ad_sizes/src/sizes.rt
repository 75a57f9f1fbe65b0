ghost use Rattle.std.specs.Prelude.{◌≡◌, length, slice_index, IfOk};
ghost use Rattle.ad_tables.specs.Rows.{row_of};
ghost use Rattle.ad_sizes.specs.Places.{KeepsHaving};
ghost use Rattle.ad_sizes.specs.Sizes.{size_of, sizes_of, AreLargest};

use crate::places::{largest_of, take_lowest};
use ad_base::{Kind, Memory};
use ad_bits::Row;
use ad_tables::Rows;
use std::alloc::Global;
use std::marker::Model;

/// The size of each slot's row: how many members it has, 0 where the slot has none. Contracts see the list of the sizes.
#[derive(Drop)]
pub struct Sizes {
    slots: u32,
    // For each binary place, the lowest first, the slots whose sizes lack it.
    lacking: Vec<Row>,
}

impl Model for Sizes {
    ghost use Rattle.std.specs.Prelude.{ℕ, List};
    ghost use Rattle.ad_sizes.specs.Places.{numbers_of, AreOver};

    ghost Value = { List ℕ };

    ghost view = { λ sizes. numbers_of sizes.slots sizes.lacking.items };

    ghost invariant = { λ sizes. AreOver sizes.slots sizes.lacking.items };
}

// The size of a slot's row.
fn size_at(rows: &Rows, kind: Kind, slot: u32) -> u32
    ensures { result ≡ size_of (row_of rows.now kind slot) }
{
    match rows.row(kind, slot) {
        Some(row) => row.count(),
        None => 0,
    }
}

// The sizes of all rows.
fn counts(alloc: Global, rows: &Rows, kind: Kind) -> Result<Vec<u32>, Memory>
    ensures { IfOk result (λ counts. counts.items ≡ sizes_of rows.now kind) }
{
    let slots = rows.slots();
    let mut counts = Vec::with_capacity(alloc, slots as usize)?;
    for slot in 0..slots {
        counts.push(size_at(rows, kind, slot))?;
    }
    Ok(counts)
}

// Takes the members that lack a place away, unless all lack it.
fn keep_having(lacking: &Row, members: &mut Row)
    requires { length members.old ≡ length lacking.now }
    ensures size { length members.new ≡ length members.old }
    ensures having { KeepsHaving lacking.now members.old members.new }
{
    if !members.is_subset(lacking) {
        members.minus_with(lacking);
    }
}

impl Sizes {
    /// The sizes of the rows of a kind.
    pub fn of(alloc: Global, rows: &Rows, kind: Kind) -> Result<Sizes, Memory>
        ensures { IfOk result (λ sizes. sizes ≡ sizes_of rows.now kind) }
    {
        let slots = rows.slots();
        let mut left = counts(alloc, rows, kind)?;
        let mut largest = largest_of(&left);
        let mut lacking = Vec::new(alloc);
        'places: while largest > 0 {
            lacking.push(take_lowest(alloc, &mut left)?)?;
            largest /= 2;
        }
        Ok(Sizes { slots, lacking })
    }

    /// Leaves those of the members whose rows are the largest.
    pub fn keep_largest(&self, members: &mut Row)
        requires { length members.old ≡ length self.now }
        ensures size { length members.new ≡ length members.old }
        ensures largest { AreLargest (slice_index self.now) members.old members.new }
    {
        let mut place = self.lacking.len();
        'places: while place > 0 {
            place -= 1;
            keep_having(&self.lacking[place], members);
        }
    }
}
