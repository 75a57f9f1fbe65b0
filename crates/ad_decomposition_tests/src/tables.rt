ghost use Rattle.std.specs.Prelude.{◌≡◌, length, IfOk};

use ad_base::{Kind, Memory};
use ad_bits::Row;
use ad_tables::{Results, Rows};
use ad_theory::empty_row;
use std::alloc::Global;
use std::sync::Arc;
use std::test::Fail;

// A row of three with this member.
fn row_with(alloc: Global, member: u32) -> Result<Row, Memory> {
    let mut row = empty_row(alloc, 3)?;
    if member < 3 {
        row.set(member);
    }
    Ok(row)
}

// Three slots: the first has the row for star, and the second the same row for top.
fn shared(alloc: Global, row: Row) -> Result<Rows, Memory> {
    let row = Arc::new(alloc, row)?;
    let mut rows = Rows::new(alloc, 3)?;
    rows.put(Kind::Star, 0, Arc::try_clone(&row)?);
    rows.put(Kind::Top, 1, row);
    Ok(rows)
}

// The first member of a row, where there is a row that has one.
fn first_of(row: Option<&Row>) -> Option<u32> {
    row?.next(0)
}

#[test]
fn rows_of_slots(rt: HostRuntime) -> Result<(), Fail> {
    let row = row_with(rt.alloc(), 2)?;
    let rows = shared(rt.alloc(), row)?;
    let table = [
        (Kind::Top, 1, Some(2)),
        (Kind::Star, 0, Some(2)),
        (Kind::Star, 1, None),
        (Kind::Bottom, 1, None),
        (Kind::Top, 3, None),
    ];
    assert!(rt; rows.slots() == 3);
    for (kind, slot, first) in table {
        assert!(rt; first_of(rows.row(kind, slot)) == first);
    }
    Ok(())
}

// The results of two tasks: rows with these members.
fn results_with(alloc: Global, first: u32, second: u32) -> Result<Results, Memory>
    ensures { IfOk result (λ results. length results ≡ 2) }
{
    let mut results = Results::empty(alloc);
    results.push(alloc, row_with(alloc, first)?)?;
    results.push(alloc, row_with(alloc, second)?)?;
    Ok(results)
}

#[test]
fn rows_of_tasks(rt: HostRuntime) -> Result<(), Fail> {
    let results = results_with(rt.alloc(), 1, 0)?;
    assert!(rt; first_of(Some(results.row(0))) == Some(1));
    let shared = results.share(1)?;
    assert!(rt; first_of(Some(&shared)) == Some(0));
    Ok(())
}
