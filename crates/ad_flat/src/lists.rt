//! The lists of slots by symbols.
ghost use Rattle.std.specs.Prelude.{◌≡◌, ◌<◌, ◌≤◌, ◌+◌, ◌⊎◌, ℕ, length, vec_len, vec_capacity, IfOk, OnOk, IsTrue, IsFalse};
ghost use Rattle.std.specs.Ordering.{nat_cmp};
ghost use Rattle.std.specs.List.Sorted.{IsStrictlySortedBy};
ghost use Rattle.smallvec.specs.SmallVec.{HasRoomFor};
ghost use Rattle.ad_theory.specs.Numbers.{among};
ghost use Rattle.ad_slots.specs.Rising.{IsWith, IsWithout};
ghost use Rattle.ad_flat.specs.Changes.{list_at, list_of, AreChanged};

use ad_base::Memory;
use ad_slots::rising::put_into;
use smallvec::SmallVec;
use std::alloc::Global;

// Puts the number into the list. There is room for it, unless it stands there.
fn enter(list: &mut SmallVec<u32, 6>, n: u32)
    requires rising { IsStrictlySortedBy nat_cmp list.old.items }
    requires room { IsFalse (among list.old.items n) → HasRoomFor list.old 1 }
    ensures { IsWith n list.old.items list.new.items }
{
    match list.as_slice().binary_search(&n) {
        Ok(_) => {}
        Err(at) => {
            let _put = list.insert(at, n);
        }
    }
}

// Takes the number out of the list.
fn leave(list: &mut SmallVec<u32, 6>, n: u32)
    requires { IsStrictlySortedBy nat_cmp list.old.items }
    ensures { IsWithout n list.old.items list.new.items }
{
    match list.as_slice().binary_search(&n) {
        Ok(at) => {
            list.remove(at);
        }
        Err(_) => {}
    }
}

// Puts the slot into the lists of these symbols. Each of them has room.
pub(crate) fn enter_each(lists: &mut Vec<SmallVec<u32, 6>>, symbols: &[u32], slot: u32)
    requires below { (s : ℕ) → IsTrue (among symbols.now s) → s < vec_len lists.old }
    requires rising { (s : ℕ) → IsStrictlySortedBy nat_cmp (list_of lists.old.items s) }
    requires room { (s : ℕ) → IsTrue (among symbols.now s) → HasRoomFor (list_at lists.old.items s) 1 }
    ensures changed { AreChanged (IsWith slot) symbols.now lists.old.items lists.new.items }
    ensures len { vec_len lists.new ≡ vec_len lists.old }
{
    for symbol in symbols {
        enter(&mut lists[*symbol as usize], slot);
    }
}

// Takes the slot out of the lists of these symbols.
pub(crate) fn leave_each(lists: &mut Vec<SmallVec<u32, 6>>, symbols: &[u32], slot: u32)
    requires below { (s : ℕ) → IsTrue (among symbols.now s) → s < vec_len lists.old }
    requires rising { (s : ℕ) → IsStrictlySortedBy nat_cmp (list_of lists.old.items s) }
    ensures changed { AreChanged (IsWithout slot) symbols.now lists.old.items lists.new.items }
    ensures len { vec_len lists.new ≡ vec_len lists.old }
{
    for symbol in symbols {
        leave(&mut lists[*symbol as usize], slot);
    }
}

// Makes room for one more slot in the lists of these symbols.
pub(crate) fn make_room(
    alloc: Global,
    lists: &mut Vec<SmallVec<u32, 6>>,
    symbols: &[u32],
) -> Result<(), Memory>
    ensures same { (s : ℕ) → list_of lists.new.items s ≡ list_of lists.old.items s }
    ensures enough { OnOk result ((s : ℕ) → IsTrue (among symbols.now s) → s < vec_len lists.new) }
    ensures room { OnOk result ((s : ℕ) → IsTrue (among symbols.now s) → HasRoomFor (list_at lists.new.items s) 1) }
    ensures most { (most : ℕ) → ((s : ℕ) → IsTrue (among symbols.now s) → s < most) → vec_len lists.old ≤ most → vec_len lists.new ≤ most }
    ensures no_fewer { vec_len lists.old ≤ vec_len lists.new }
{
    grow(alloc, lists, bound_of(symbols))?;
    reserve_each(lists, symbols)
}

// Makes room for one more slot in the lists of these symbols, which are there.
fn reserve_each(lists: &mut Vec<SmallVec<u32, 6>>, symbols: &[u32]) -> Result<(), Memory>
    requires { (s : ℕ) → IsTrue (among symbols.now s) → s < vec_len lists.old }
    ensures same { (s : ℕ) → list_of lists.new.items s ≡ list_of lists.old.items s }
    ensures room { OnOk result ((s : ℕ) → IsTrue (among symbols.now s) → HasRoomFor (list_at lists.new.items s) 1) }
    ensures len { vec_len lists.new ≡ vec_len lists.old }
{
    for symbol in symbols {
        lists[*symbol as usize].reserve(1)?;
    }
    Ok(())
}

// Makes the lists at least so many. New ones are empty.
fn grow(alloc: Global, lists: &mut Vec<SmallVec<u32, 6>>, count: usize) -> Result<(), Memory>
    ensures same { (s : ℕ) → list_of lists.new.items s ≡ list_of lists.old.items s }
    ensures enough { OnOk result (count ≤ vec_len lists.new) }
    ensures most { (most : ℕ) → count ≤ most → vec_len lists.old ≤ most → vec_len lists.new ≤ most }
    ensures no_fewer { vec_len lists.old ≤ vec_len lists.new }
{
    for _symbol in lists.len()..count {
        lists.push(SmallVec::new(alloc))?;
    }
    Ok(())
}

// Other lists of the same slots.
pub(crate) fn copy_lists(
    alloc: Global,
    lists: &[SmallVec<u32, 6>],
) -> Result<Vec<SmallVec<u32, 6>>, Memory>
    ensures same { IfOk result (λ copy. (s : ℕ) → list_of copy.items s ≡ list_of lists.now s) }
    ensures len { IfOk result (λ copy. vec_len copy ≡ length lists.now) }
{
    let mut copy = Vec::with_capacity(alloc, lists.len())?;
    for list in lists {
        copy.push(SmallVec::from_slice(alloc, list.as_slice())?)?;
    }
    Ok(copy)
}

// A number above these symbols, and no greater than it has to be.
pub(crate) fn bound_of(symbols: &[u32]) -> usize
    ensures above { (s : ℕ) → IsTrue (among symbols.now s) → s < result }
    ensures least { (bound : ℕ) → ((s : ℕ) → IsTrue (among symbols.now s) → s < bound) → result ≤ bound }
{
    let mut bound = 0;
    for symbol in symbols {
        bound = above(bound, *symbol);
    }
    bound
}

// The bound, or a number above the symbol where the bound isn't.
fn above(bound: usize, symbol: u32) -> usize
    ensures bound { bound ≤ result }
    ensures symbol { symbol < result }
    ensures least { (result ≡ bound) ⊎ (result ≡ symbol + 1) }
{
    if (symbol as usize) < bound {
        bound
    } else {
        symbol as usize + 1
    }
}

// Puts the number into the list if it is to stand there. The list has room.
pub(crate) fn enter_if(list: &mut Vec<u32>, is_there: bool, n: u32)
    requires rising { IsStrictlySortedBy nat_cmp list.old.items }
    requires room { vec_len list.old < vec_capacity list.old }
    ensures present { IsTrue is_there → IsWith n list.old.items list.new.items }
    ensures absent { IsFalse is_there → list.new.items ≡ list.old.items }
{
    if is_there {
        put_into(list, n);
    }
}

// Another list of the same.
pub(crate) fn copy_list<T: Copy>(alloc: Global, list: &[T]) -> Result<Vec<T>, Memory>
    ensures { IfOk result (λ copy. copy.items ≡ list.now) }
{
    let mut copy = Vec::with_capacity(alloc, list.len())?;
    copy.extend_from_slice(list)?;
    Ok(copy)
}
