ghost use Rattle.std.specs.Prelude.{◌≡◌, ◌<◌, ◌≤◌, ◌↔◌, ℕ, Some, None, [], vec_len, vec_capacity, length, IfOk, OnOk, OnErr, IsTrue, IsFalse};
ghost use Rattle.std.specs.Option.{option_copied};
ghost use Rattle.smallvec.specs.SmallVec.{HasRoomFor};
ghost use Rattle.ad_base.specs.declared.limits.Side.{Side};
ghost use Rattle.ad_base.specs.declared.limits.Side.TheVariants as sides;
ghost use Rattle.ad_theory.specs.Numbers.{among};
ghost use Rattle.ad_slots.specs.Held.{IsCovered};
ghost use Rattle.ad_slots.specs.Places.{slot_at, is_held, held_slots, held_symbols, held_globals, is_global, least_free, AreCovered, AreHeldBelow, IsReplaced};
ghost use Rattle.ad_flat.specs.Changes.{list_at, list_of};
ghost use Rattle.ad_flat.specs.Free.{AreFree};

use crate::entries::Entries;
use crate::lists::{copy_list, copy_lists, enter_each, enter_if, leave_each, make_room};
use crate::rows::{copy_row, full_row};
use crate::shared::Entry;
use ad_base::{Limits, Memory, Side};
use ad_bits::Row;
use ad_slots::Slot;
use ad_slots::rising::drop_from;
use smallvec::SmallVec;
use std::alloc::Global;

// The slots, with what is looked up in them.
#[derive(Drop)]
pub(crate) struct Slots {
    // how many slots and symbols there may be
    most: u32,
    symbols: u32,
    // what each slot holds; those past the end are free
    entries: Entries,
    // the free slots
    free: Row,
    // for each symbol the slots in whose signatures it stands; those past the end stand in none
    occurrences: Vec<SmallVec<u32, 6>>,
    // the slots that are not local for nothing, on each side
    bottom: Vec<u32>,
    top: Vec<u32>,
    ghost few_slots: { most ≤ 65536 },
    ghost few_symbols: { symbols ≤ 65536 },
    ghost within: { length entries ≤ most },
    ghost are_free: { AreFree most entries free },
    ghost lists_within: { vec_len occurrences ≤ symbols },
    ghost below: { AreHeldBelow (vec_len occurrences) entries },
    ghost covered: { AreCovered entries },
    ghost indexed: { (s : ℕ) → list_of occurrences.items s ≡ held_slots entries s },
    ghost bottom_globals: { bottom.items ≡ held_globals entries sides.Bottom },
    ghost top_globals: { top.items ≡ held_globals entries sides.Top },
}

impl Slots {
    // All slots are free.
    pub(crate) fn new(alloc: Global, limits: &Limits) -> Result<Slots, Memory>
        requires axioms { limits.now.axioms ≤ 65536 }
        requires entities { limits.now.entities ≤ 65536 }
        ensures most { IfOk result (λ slots. slots.most ≡ limits.now.axioms) }
        ensures symbols { IfOk result (λ slots. slots.symbols ≡ limits.now.entities) }
        ensures empty { IfOk result (λ slots. slots.entries ≡ []) }
    {
        let free = full_row(alloc, limits.axioms)?;
        Ok(Slots {
            most: limits.axioms,
            symbols: limits.entities,
            entries: Entries::new(alloc),
            free,
            occurrences: Vec::new(alloc),
            bottom: Vec::new(alloc),
            top: Vec::new(alloc),
        })
    }

    // The least free slot.
    pub(crate) fn next(&self) -> usize
        ensures { result ≡ least_free self.now.entries }
    {
        match self.free.next(0) {
            Some(i) => i as usize,
            None => self.most as usize,
        }
    }

    // Takes the memory that the lists need for one more axiom with these symbols.
    fn reserve(&mut self, alloc: Global, symbols: &[u32]) -> Result<(), Memory>
        requires { (s : ℕ) → IsTrue (among symbols.now s) → s < self.old.symbols }
        ensures entries { self.new.entries ≡ self.old.entries }
        ensures most { self.new.most ≡ self.old.most }
        ensures symbols { self.new.symbols ≡ self.old.symbols }
        ensures lists { OnOk result ((s : ℕ) → IsTrue (among symbols.now s) → s < vec_len self.new.occurrences) }
        ensures places { OnOk result ((s : ℕ) → IsTrue (among symbols.now s) → HasRoomFor (list_at self.new.occurrences.items s) 1) }
        ensures bottom { OnOk result (vec_len self.new.bottom < vec_capacity self.new.bottom) }
        ensures top { OnOk result (vec_len self.new.top < vec_capacity self.new.top) }
    {
        self.bottom.reserve(1)?;
        self.top.reserve(1)?;
        make_room(alloc, &mut self.occurrences, symbols)
    }

    // Puts an axiom into a free slot. Whether it is local for nothing is known.
    pub(crate) fn put(
        &mut self,
        alloc: Global,
        i: u32,
        slot: Slot,
        is_bottom_global: bool,
        is_top_global: bool,
    ) -> Result<(), Memory>
        requires vacant { IsFalse (is_held self.old.entries i) }
        requires next { i ≤ length self.old.entries }
        requires within { i < self.old.most }
        requires below { (s : ℕ) → IsTrue (among slot.symbols s) → s < self.old.symbols }
        requires covered { IsCovered slot.code slot.symbols }
        requires bottom { is_bottom_global ≡ is_global sides.Bottom (Some slot) }
        requires top { is_top_global ≡ is_global sides.Top (Some slot) }
        ensures ok { OnOk result (IsReplaced i (Some slot) self.old.entries self.new.entries) }
        ensures err { OnErr result (self.new.entries ≡ self.old.entries) }
        ensures most { self.new.most ≡ self.old.most }
        ensures symbols { self.new.symbols ≡ self.old.symbols }
    {
        self.reserve(alloc, slot.symbols())?;
        let entry = Entry::new(alloc, slot)?;
        self.entries.hold(i as usize, entry)?;
        let symbols = self.entries.symbols(i as usize);
        enter_each(&mut self.occurrences, symbols, i);
        enter_if(&mut self.bottom, is_bottom_global, i);
        enter_if(&mut self.top, is_top_global, i);
        self.free.unset(i);
        Ok(())
    }

    // Frees a slot.
    pub(crate) fn remove(&mut self, i: u32)
        requires { IsTrue (is_held self.old.entries i) }
        ensures freed { IsReplaced i None self.old.entries self.new.entries }
        ensures most { self.new.most ≡ self.old.most }
        ensures symbols { self.new.symbols ≡ self.old.symbols }
    {
        let symbols = self.entries.symbols(i as usize);
        leave_each(&mut self.occurrences, symbols, i);
        drop_from(&mut self.bottom, i);
        drop_from(&mut self.top, i);
        self.entries.free(i as usize);
        self.free.set(i);
    }

    // The same slots once more, which share axioms.
    pub(crate) fn copy(&self, alloc: Global) -> Result<Slots, Memory>
        ensures entries { IfOk result (λ copy. copy.entries ≡ self.now.entries) }
        ensures most { IfOk result (λ copy. copy.most ≡ self.now.most) }
        ensures symbols { IfOk result (λ copy. copy.symbols ≡ self.now.symbols) }
    {
        let (bottom, top) = self.copy_globals(alloc)?;
        let (occurrences, free) = self.copy_places(alloc)?;
        Ok(Slots {
            most: self.most,
            symbols: self.symbols,
            entries: self.entries.copy(alloc)?,
            free,
            occurrences,
            bottom,
            top,
        })
    }

    fn copy_globals(&self, alloc: Global) -> Result<(Vec<u32>, Vec<u32>), Memory>
        ensures bottom { IfOk result (λ copy. copy.0.items ≡ self.now.bottom.items) }
        ensures top { IfOk result (λ copy. copy.1.items ≡ self.now.top.items) }
    {
        let bottom = copy_list(alloc, self.bottom.as_slice())?;
        Ok((bottom, copy_list(alloc, self.top.as_slice())?))
    }

    fn copy_places(&self, alloc: Global) -> Result<(Vec<SmallVec<u32, 6>>, Row), Memory>
        ensures occurrences { IfOk result (λ copy. (s : ℕ) → list_of copy.0.items s ≡ list_of self.now.occurrences.items s) }
        ensures len { IfOk result (λ copy. vec_len copy.0 ≡ vec_len self.now.occurrences) }
        ensures free { IfOk result (λ copy. copy.1 ≡ self.now.free) }
    {
        let occurrences = copy_lists(alloc, self.occurrences.as_slice())?;
        Ok((occurrences, copy_row(alloc, &self.free)?))
    }

    // How many slots and symbols there may be.
    pub(crate) fn most(&self) -> u32
        ensures { result ≡ self.now.most }
    {
        self.most
    }

    pub(crate) fn symbols(&self) -> u32
        ensures { result ≡ self.now.symbols }
    {
        self.symbols
    }

    // What a slot holds.
    pub(crate) fn get(&self, i: u32) -> Option<&Slot>
        ensures { option_copied result ≡ slot_at self.now.entries i }
    {
        self.entries.get(i as usize)
    }

    // The symbols of a slot.
    pub(crate) fn signature(&self, i: u32) -> &[u32]
        ensures { result.now ≡ held_symbols self.now.entries i }
    {
        self.entries.symbols(i as usize)
    }

    // The slots in whose signatures the symbol stands.
    pub(crate) fn occurs(&self, s: u32) -> &[u32]
        ensures { result.now ≡ held_slots self.now.entries s }
    {
        match self.occurrences.get(s as usize) {
            Some(list) => list.as_slice(),
            None => &[],
        }
    }

    // The slots that are not local for nothing.
    pub(crate) fn global(&self, side: Side) -> &[u32]
        ensures { result.now ≡ held_globals self.now.entries side }
    {
        match side {
            Side::Bottom => self.bottom.as_slice(),
            Side::Top => self.top.as_slice(),
        }
    }
}
