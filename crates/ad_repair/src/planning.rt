ghost use Rattle.std.specs.Prelude.{◌≡◌, ◌≤◌, ◌<◌, ◌+◌, ◌^◌, ◌&&◌, ◌++◌, not, ℕ, Some, None, IsTrue, IfOk, OnOk, length, map, slice_index_or};
ghost use Rattle.std.specs.Option.{option_map};
ghost use Rattle.ad_base.specs.declared.limits.Kind.{Kind};
ghost use Rattle.ad_bits.specs.Rows.{has};
ghost use Rattle.ad_tables.specs.Rows.{of_kind, row_of};
ghost use Rattle.ad_decomposition.specs.Affected.{IsChangeOfSlots, to_find};
ghost use Rattle.ad_decomposition.specs.Tables.{AreGenuine};
ghost use Rattle.ad_repair.specs.Changes.{theory_of, change_of};
ghost use Rattle.ad_repair.specs.Marks.{marked_of};
ghost use Rattle.ad_repair.specs.Plans.{AreOfKind, AreTasks, IsFilled, IsPlanFor, IsPlanOf, row_where, tasks_for};

use crate::filling::keep;
use crate::marks::{Marks, marks_after};
use crate::planned::Plan;
use ad_base::{Kind, Memory};
use ad_bits::Row;
use ad_groups::grouped;
use ad_tables::Rows;
use ad_theory::{Tally, Task, Universe};
use std::alloc::Global;

// Appends a task of this kind for each of these slots.
fn append(tasks: &mut Vec<Task>, kind: Kind, slots: &[u32]) -> Result<(), Memory>
    ensures { OnOk result (tasks.new.items ≡ tasks.old.items ++ tasks_for kind slots.now) }
{
    for slot in slots {
        tasks.push(Task { kind, slot: *slot })?;
    }
    Ok(())
}

// The number of the group's task.
fn number_of(group: Option<u32>, first: u32) -> Option<u32>
    requires { (g : ℕ) → group ≡ Some g → first + g < 2 ^ 32 }
    ensures { result ≡ option_map (λ g. first + g) group }
{
    match group {
        Some(group) => Some(first + group),
        None => None,
    }
}

// The numbers of the groups' tasks, of which this is the first.
fn numbers_of(alloc: Global, groups: &[Option<u32>], first: u32) -> Result<Vec<Option<u32>>, Memory>
    requires { (i g : ℕ) → slice_index_or groups.now i None ≡ Some g → first + g < 2 ^ 32 }
    ensures { IfOk result (λ numbers. (i : ℕ) → slice_index_or numbers.items i None ≡ option_map (λ g. first + g) (slice_index_or groups.now i None)) }
{
    let mut numbers = Vec::with_capacity(alloc, groups.len())?;
    for at in 0..groups.len() {
        numbers.push(number_of(groups[at], first))?;
    }
    Ok(numbers)
}

// Appends the tasks of a kind, one for each signature of its wanted slots. The result has the number of each slot's
// task.
fn append_for<U: Universe>(
    alloc: Global,
    new: &U,
    kind: Kind,
    wanted: &Row,
    tasks: &mut Vec<Task>,
) -> Result<Vec<Option<u32>>, Memory>
    requires wanted { length wanted.now ≡ U.slot_count new.now }
    requires few { length tasks.old.items ≤ 131072 }
    ensures tasks { IfOk result (λ numbers. AreOfKind (U.symbols_of new.now) (has wanted.now) kind tasks.old.items tasks.new.items numbers.items) }
    ensures few { OnOk result (length tasks.new.items ≤ length tasks.old.items + 65536) }
{
    let grouping = grouped(alloc, new, wanted)?;
    let numbers = numbers_of(alloc, &grouping.groups, tasks.len() as u32)?;
    append(tasks, kind, &grouping.firsts)?;
    Ok(numbers)
}

// The rows of live slots whose modules are not to be found.
fn kept_rows<U: Universe>(
    alloc: Global,
    rows: &Rows,
    new: &U,
    marks: &Marks,
) -> Result<Rows, Memory>
    requires { (kind : Kind) → length (marked_of marks.now kind) ≡ U.slot_count new.now }
    ensures long { IfOk result (λ kept. (kind : Kind) → length (of_kind kept kind) ≡ U.slot_count new.now) }
    ensures rows { IfOk result (λ kept. (kind : Kind) (i : ℕ) → i < U.slot_count new.now → row_of kept kind i ≡
        row_where (U.is_live new.now i && not (has (marked_of marks.now kind) i)) (row_of rows.now kind i)) }
{
    let mut kept = Rows::new(alloc, new.slots())?;
    keep(&mut kept, rows, new, Kind::Bottom, &marks.bottom)?;
    keep(&mut kept, rows, new, Kind::Top, &marks.top)?;
    keep(&mut kept, rows, new, Kind::Star, &marks.star)?;
    Ok(kept)
}

// The plan for the marked slots, with the rows that stay.
fn plan_for<U: Universe>(alloc: Global, new: &U, marks: &Marks, kept: Rows) -> Result<Plan, Memory>
    requires { (kind : Kind) → length (marked_of marks.now kind) ≡ U.slot_count new.now }
    ensures tasks { IfOk result (λ plan. AreTasks (U.symbols_of new.now) (λ kind. has (marked_of marks.now kind)) plan.tasks) }
    ensures numbers { IfOk result (IsPlanOf (U.symbols_of new.now) (λ kind. has (marked_of marks.now kind))) }
    ensures kept { IfOk result (λ plan. plan.kept ≡ kept) }
{
    let mut tasks = Vec::new(alloc);
    let bottom = append_for(alloc, new, Kind::Bottom, &marks.bottom, &mut tasks)?;
    let top = append_for(alloc, new, Kind::Top, &marks.top, &mut tasks)?;
    let star = append_for(alloc, new, Kind::Star, &marks.star, &mut tasks)?;
    Ok(Plan::of(tasks, kept, bottom, top, star))
}

/// Plans the repair of rows after a change from the axioms of `old` to those of `new`, with as many slots and symbols.
/// The rows are those of `old`, and `removed` and `added` have the slots from which an axiom was removed and to which
/// one was added.
pub fn plan<U: Universe>(
    alloc: Global,
    old: &U,
    rows: &Rows,
    new: &U,
    removed: &Row,
    added: &Row,
    tally: &mut Tally,
) -> Result<Plan, Memory>
    requires slots { U.slot_count old.now ≡ U.slot_count new.now }
    requires symbols { U.symbol_count old.now ≡ U.symbol_count new.now }
    requires removed { length removed.now ≡ U.slot_count new.now }
    requires added { length added.now ≡ U.slot_count new.now }
    requires genuine { AreGenuine (U.symbols_of old.now) (U.is_local old.now) (U.is_live old.now) (U.slot_count old.now) rows.now }
    requires change { IsChangeOfSlots (change_of (theory_of (U.symbols_of old.now) (U.is_local old.now) (U.is_live old.now))
        (theory_of (U.symbols_of new.now) (U.is_local new.now) (U.is_live new.now)) removed.now added.now (U.slot_count old.now)) }
    ensures tasks { IfOk result (λ plan. AreTasks (U.symbols_of new.now) (to_find (change_of
        (theory_of (U.symbols_of old.now) (U.is_local old.now) (U.is_live old.now))
        (theory_of (U.symbols_of new.now) (U.is_local new.now) (U.is_live new.now)) removed.now added.now (U.slot_count old.now)) rows.now) plan.tasks) }
    ensures plan { IfOk result (IsPlanFor (theory_of (U.symbols_of new.now) (U.is_local new.now) (U.is_live new.now)) (U.slot_count new.now)) }
    ensures tests { tally.old.tests ≤ tally.new.tests }
    ensures runs { tally.new.runs ≡ tally.old.runs }
{
    let marks = marks_after(alloc, old, rows, new, removed, added, tally)?;
    let kept = kept_rows(alloc, rows, new, &marks)?;
    plan_for(alloc, new, &marks, kept)
}
