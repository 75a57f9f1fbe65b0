ghost use Rattle.std.specs.Prelude.{◌≡◌, ◌<◌, ◌^◌, [], length, slice_index_or};
ghost use Rattle.std.specs.List.{sum_by};
ghost use Rattle.ad_bits.specs.Rows.{has, member_count};

use ad_bits::Row;
use std::marker::Model;

/// For each atom the atoms that it covers.
#[derive(Drop)]
pub struct Covers {
    rows: Vec<Row>,
    tops: Row,
    count: u64,
}

impl Model for Covers {
    ghost use Rattle.std.specs.Prelude.{◌≡◌, length};
    ghost use Rattle.std.specs.List.{sum_by};
    ghost use Rattle.ad_bits.specs.Rows.{member_count};
    ghost use Rattle.ad_depend.specs.Covered.{Covered};

    ghost Value = { Covered };

    ghost view = { λ covers. record { rows = covers.rows.items; tops = covers.tops } };

    ghost invariant = { λ covers. (length covers.tops ≡ length covers.rows.items)
        × (covers.count ≡ sum_by member_count covers.rows.items) };
}

// How many members the rows have together.
fn count_members(rows: &[Row]) -> u64
    requires { length rows.now < 2 ^ 32 }
    ensures { result ≡ sum_by member_count rows.now }
{
    let mut count = 0;
    for row in rows {
        count += u64::from(row.count());
    }
    count
}

impl Covers {
    // Covers from the row of each atom, and the row of those on which no other depends.
    pub(crate) fn of(rows: Vec<Row>, tops: Row) -> Covers
        requires few { length rows.items < 2 ^ 32 }
        requires tops { length tops ≡ length rows.items }
        ensures { result ≡ record { rows = rows.items; tops = tops } }
    {
        let count = count_members(&rows);
        Covers { rows, tops, count }
    }

    /// The atoms on which this one depends with no other atom strictly between.
    pub fn row(&self, atom: u32) -> &Row
        requires { atom < length self.now.rows }
        ensures { result.now ≡ slice_index_or self.now.rows atom [] }
    {
        &self.rows[atom as usize]
    }

    /// How many pairs of an atom and one that it covers there are.
    pub fn count(&self) -> u64
        ensures { result ≡ sum_by member_count self.now.rows }
    {
        self.count
    }

    /// Whether no other atom depends on this one.
    pub fn is_top(&self, atom: u32) -> bool
        requires { atom < length self.now.rows }
        ensures { result ≡ has self.now.tops atom }
    {
        self.tops.has(atom)
    }
}
