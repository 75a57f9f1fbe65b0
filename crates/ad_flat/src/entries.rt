//! What slots hold.
ghost use Rattle.std.specs.Prelude.{◌≡◌, ◌<◌, ◌≤◌, ℕ, [], Some, None, length, vec_len, vec_capacity, IfOk, OnOk, OnErr, IsTrue, IsFalse};
ghost use Rattle.std.specs.Option.{option_copied};
ghost use Rattle.ad_slots.specs.Places.{slot_at, is_held, held_symbols, IsReplaced};
ghost use Rattle.ad_flat.specs.Keys.{IsReplacedKey};

use crate::lists::copy_list;
use crate::shared::Entry;
use ad_base::Memory;
use ad_slots::Slot;
use slab::Slab;
use std::alloc::Global;
use std::marker::Model;

// What each slot holds; those past the end are free. A slab has the axioms under keys of its own, and a table has the key
// of each slot.
#[derive(Drop)]
pub(crate) struct Entries {
    axioms: Slab<Entry>,
    keys: Vec<Option<usize>>,
}

impl Model for Entries {
    ghost use Rattle.std.specs.Prelude.{List, Option};
    ghost use Rattle.std.specs.Coded.{coded_list, coded_option};
    ghost use Rattle.ad_slots.specs.Held.{Held};
    ghost use Rattle.ad_slots.specs.contracts.slot.Slot as slots;

    ghost Value = { List (Option Held) };

    ghost coded = { coded_list (coded_option slots.the_row.coded) };

    ghost use Rattle.ad_flat.specs.Keys.{values_by, AreKeys};

    ghost view = { λ e. values_by e.axioms e.keys.items };

    ghost invariant = { λ e. AreKeys e.axioms e.keys.items };
}

impl Entries {
    // All slots are free.
    pub(crate) fn new(alloc: Global) -> Entries
        ensures { result ≡ [] }
    {
        Entries {
            axioms: Slab::new(alloc),
            keys: Vec::new(alloc),
        }
    }

    // What a slot holds.
    pub(crate) fn get(&self, i: usize) -> Option<&Slot>
        ensures { option_copied result ≡ slot_at self.now i }
    {
        match self.keys.get(i) {
            Some(Some(key)) => Some(self.axioms[*key].slot()),
            _ => None,
        }
    }

    // The symbols of a slot.
    pub(crate) fn symbols(&self, i: usize) -> &[u32]
        ensures { result.now ≡ held_symbols self.now i }
    {
        match self.get(i) {
            Some(slot) => slot.symbols(),
            None => &[],
        }
    }

    // Puts an axiom into a free slot. After want of memory all slots are as before.
    pub(crate) fn hold(&mut self, i: usize, entry: Entry) -> Result<(), Memory>
        requires within { i ≤ length self.old }
        requires vacant { IsFalse (is_held self.old i) }
        ensures replaced { OnOk result (IsReplaced i (Some entry) self.old self.new) }
        ensures len { (most : ℕ) → i < most → length self.old ≤ most → length self.new ≤ most }
        ensures err { OnErr result (self.new ≡ self.old) }
    {
        self.keys.reserve(1)?;
        let key = self.axioms.insert(entry)?;
        write_key(&mut self.keys, i, key);
        Ok(())
    }

    // Frees a slot. It takes no memory.
    pub(crate) fn free(&mut self, i: usize)
        requires { IsTrue (is_held self.old i) }
        ensures freed { IsReplaced i None self.old self.new }
        ensures len { length self.new ≡ length self.old }
    {
        if let Some(key) = self.keys[i].take() {
            self.axioms.remove(key);
        }
    }

    // The same axioms once more. They are shared, and stand under the same keys.
    pub(crate) fn copy(&self, alloc: Global) -> Result<Entries, Memory>
        ensures { IfOk result (λ copy. copy ≡ self.now) }
    {
        let axioms = self.axioms.clone()?;
        let keys = copy_list(alloc, self.keys.as_slice())?;
        Ok(Entries { axioms, keys })
    }
}

// Writes the key of a slot into the table, which has room for one more.
fn write_key(keys: &mut Vec<Option<usize>>, i: usize, key: usize)
    requires within { i ≤ vec_len keys.old }
    requires room { vec_len keys.old < vec_capacity keys.old }
    ensures replaced { IsReplacedKey i (Some key) keys.old.items keys.new.items }
    ensures len { (most : ℕ) → i < most → vec_len keys.old ≤ most → vec_len keys.new ≤ most }
{
    if i < keys.len() {
        keys[i] = Some(key);
    } else {
        keys.push_reserved(Some(key));
    }
}
