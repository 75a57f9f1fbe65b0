//! The numbers of an axiom's entities.
ghost use Rattle.std.specs.Prelude.{◌≡◌, ◌<◌, ◌≤◌, ◌+◌, ◌||◌, ℕ, vec_len, vec_capacity, IfOk};
ghost use Rattle.std.specs.Ordering.{nat_cmp};
ghost use Rattle.std.specs.List.Sorted.{IsStrictlySortedBy};
ghost use Rattle.ad_theory.specs.Numbers.{among};
ghost use Rattle.ad_codes.specs.Laws.{number_list, numbers_of};

use ad_base::Memory;
use ad_slots::rising::put_into;
use ad_tree::{Entity, Naming};
use std::alloc::Global;

// The numbers of those of the entities that have one, rising, each once.
pub(crate) fn numbers_of<N: Naming>(
    alloc: Global,
    entities: &[Entity],
    names: &N,
) -> Result<Vec<u32>, Memory>
    ensures rising { IfOk result (λ list. IsStrictlySortedBy nat_cmp list.items) }
    ensures members { IfOk result (λ list. (n : ℕ) → among list.items n ≡ among (numbers_of (N.number_of names.now) entities.now) n) }
{
    let mut list = Vec::with_capacity(alloc, entities.len())?;
    for entity in entities {
        put_number(&mut list, names.number(entity.kind, &entity.name));
    }
    Ok(list)
}

// Puts a number, if there is one, into the list, which has room.
fn put_number(list: &mut Vec<u32>, number: Option<u32>)
    requires rising { IsStrictlySortedBy nat_cmp list.old.items }
    requires room { vec_len list.old < vec_capacity list.old }
    ensures rising { IsStrictlySortedBy nat_cmp list.new.items }
    ensures members { (n : ℕ) → among list.new.items n ≡ (among (number_list number) n || among list.old.items n) }
    ensures len { vec_len list.new ≤ vec_len list.old + 1 }
    ensures capacity { vec_capacity list.new ≡ vec_capacity list.old }
{
    match number {
        Some(n) => put_into(list, n),
        None => {}
    }
}
