//! Rows are sets.
ghost use Rattle.std.specs.Prelude.{◌≡◌, ◌<◌, length, IfOk};

use ad_bits::{Memory, Row};
use std::alloc::Global;
use std::test::Fail;

// A row of this size whose members are the multiples of the step.
fn multiples(alloc: Global, size: u32, step: u32) -> Result<Row, Memory>
    requires { 0 < step }
    ensures { IfOk result (λ row. length row ≡ size) }
{
    let mut row = Row::new(alloc, size)?;
    for i in 0..size {
        if i % step == 0 {
            row.set(i);
        }
    }
    Ok(row)
}

// The members that a row is to have.
#[derive(Clone, Copy)]
enum Members {
    None,
    Threes,
    Either,
    FivesAlone,
}

fn is_expected(members: Members, i: u32) -> bool {
    match members {
        Members::None => false,
        Members::Threes => i % 3 == 0,
        Members::Either => i % 3 == 0 || i % 5 == 0,
        Members::FivesAlone => i % 5 == 0 && i % 3 != 0,
    }
}

// Whether the row has these members and no others.
fn has_exactly(row: &Row, members: Members) -> bool {
    for i in 0..row.size() {
        if row.has(i) != is_expected(members, i) {
            return false;
        }
    }
    true
}

// Whether `next` finds the next multiple of 3 from each number on.
fn finds_threes(row: &Row) -> bool {
    let size = row.size();
    for from in 0..size {
        let next = (u64::from(from) + 2) / 3 * 3;
        let expected = if next < u64::from(size) {
            Some(next)
        } else {
            None
        };
        if row.next(from).map(u64::from) != expected {
            return false;
        }
    }
    row.next(size).is_none()
}

// Whether the calls that read answer as they are to on the multiples of 3 and of 5.
fn reads_agree(threes: &Row, fives: &Row) -> bool
    requires { length threes.now ≡ length fives.now }
{
    let size = threes.size();
    u64::from(threes.count()) == (u64::from(size) + 2) / 3
        && has_exactly(threes, Members::Threes)
        && finds_threes(threes)
        && threes.meets(fives) == (size > 0)
        && threes.same(fives) == (size <= 3)
        && fives.is_subset(threes) == (size <= 5)
}

// Whether the calls that change an empty row leave what they are to.
fn changes_agree(row: &mut Row, threes: &Row, fives: &Row) -> bool
    requires threes { length row.old ≡ length threes.now }
    requires fives { length row.old ≡ length fives.now }
{
    let is_empty = has_exactly(row, Members::None) && row.next(0).is_none();
    row.copy_from(threes);
    let is_copy = row.same(threes);
    row.union_with(fives);
    let is_union = has_exactly(row, Members::Either) && fives.is_subset(row);
    row.minus_with(threes);
    let is_rest = has_exactly(row, Members::FivesAlone) && !row.meets(threes);
    row.clear();
    let is_clear = has_exactly(row, Members::None);
    is_empty && is_copy && is_union && is_rest && is_clear
}

// Compiles at a type whose values may go to another thread and be shared there.
fn crosses_threads<T: Send + Sync>(_value: &T) -> bool {
    true
}

// Whether the last number comes and goes.
fn last_agrees(row: &mut Row) -> bool {
    let size = row.size();
    if size == 0 {
        return true;
    }
    row.set(size - 1);
    let came = row.has(size - 1);
    row.unset(size - 1);
    came && !row.has(size - 1)
}

#[test]
fn rows_are_sets(rt: HostRuntime) -> Result<(), Fail> {
    for size in [0, 1, 63, 64, 65, 256, 300] {
        let threes = multiples(rt.alloc(), size, 3)?;
        let fives = multiples(rt.alloc(), size, 5)?;
        let mut row = Row::new(rt.alloc(), size)?;
        assert!(rt; row.size() == size);
        assert!(rt; crosses_threads(&row), "at {size}");
        assert!(rt; reads_agree(&threes, &fives), "at {size}");
        assert!(rt; changes_agree(&mut row, &threes, &fives), "at {size}");
        assert!(rt; last_agrees(&mut row), "at {size}");
    }
    Ok(())
}
