ghost use Rattle.std.specs.Prelude.{◌≡◌, ◌+◌, ◌∷◌, ◌++◌, [], ◌<◌, ◌⊎◌, ℕ, List, Option, Some, None, IfOk, cond, length};
ghost use Rattle.std.specs.Str.{bytes_eq};
ghost use Rattle.ad_bits.specs.Rows.{has};
ghost use Rattle.ad_groups.specs.Keys.{value_at};
ghost use Rattle.ad_groups.specs.Groups.{AreGroups, AreKnown};

use crate::key::key_of;
use ad_base::Memory;
use ad_bits::Row;
use ad_theory::Universe;
use std::alloc::Global;
use std::collections::BTreeMap;

/// Slots that are grouped by signature.
#[derive(Drop)]
pub struct Grouping {
    /// The group of each slot; None exactly where the slot is not wanted.
    pub groups: Vec<Option<u32>>,
    /// The first slot of each group.
    pub firsts: Vec<u32>,
}

// The group of the signature with this key. Where it has none, a new group begins with the slot.
fn group_of(
    known: &mut BTreeMap<Vec<u32>, u32>,
    firsts: &mut Vec<u32>,
    key: Vec<u32>,
    slot: u32,
) -> Result<u32, Memory>
    requires { length firsts.old.items < 65536 }
    ensures group { IfOk result (λ group.
        ((value_at known.old key.items ≡ Some group) × (firsts.new.items ≡ firsts.old.items))
        ⊎ ((value_at known.old key.items ≡ None) × (group ≡ length firsts.old.items) × (firsts.new.items ≡ firsts.old.items ++ slot ∷ []))) }
    ensures known { IfOk result (λ group. (q : List ℕ) →
        value_at known.new q ≡ cond (bytes_eq key.items q) (Some group) (value_at known.old q)) }
{
    if let Some(group) = known.get(key.as_slice()).copied() {
        return Ok(group);
    }
    let group = firsts.len() as u32;
    firsts.push(slot)?;
    known.insert(key, group)?;
    Ok(group)
}

// The group of a slot, for the slots below it.
fn place<U: Universe>(
    alloc: Global,
    universe: &U,
    wanted: &Row,
    known: &mut BTreeMap<Vec<u32>, u32>,
    firsts: &mut Vec<u32>,
    slot: u32,
) -> Result<Option<u32>, Memory>
    requires slot { slot < U.slot_count universe.now }
    requires wanted { length wanted.now ≡ U.slot_count universe.now }
    requires few { length firsts.old.items < 65536 }
    ensures { IfOk result (λ group. (groups : List (Option ℕ)) →
        AreGroups (U.symbols_of universe.now) (has wanted.now) slot groups firsts.old.items →
        AreKnown (U.symbols_of universe.now) (value_at known.old) firsts.old.items →
        AreGroups (U.symbols_of universe.now) (has wanted.now) (slot + 1) (groups ++ group ∷ []) firsts.new.items
        × AreKnown (U.symbols_of universe.now) (value_at known.new) firsts.new.items) }
{
    if !wanted.has(slot) {
        return Ok(None);
    }
    let key = key_of(alloc, universe.signature(slot))?;
    let group = group_of(known, firsts, key, slot)?;
    Ok(Some(group))
}

/// Groups the wanted slots by signature, so that what is found for one slot of a group is found for all.
pub fn grouped<U: Universe>(alloc: Global, universe: &U, wanted: &Row) -> Result<Grouping, Memory>
    requires { length wanted.now ≡ U.slot_count universe.now }
    ensures { IfOk result (λ grouping. AreGroups (U.symbols_of universe.now) (has wanted.now) (U.slot_count universe.now)
        grouping.groups.items grouping.firsts.items) }
{
    let mut known = BTreeMap::new(alloc);
    let mut firsts = Vec::new(alloc);
    let mut groups = Vec::new(alloc);
    for slot in 0..universe.slots() {
        let group = place(alloc, universe, wanted, &mut known, &mut firsts, slot)?;
        groups.push(group)?;
    }
    Ok(Grouping { groups, firsts })
}
