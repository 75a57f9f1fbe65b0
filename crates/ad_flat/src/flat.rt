ghost use Rattle.std.specs.Prelude.{◌≡◌, ◌≢◌, ◌<◌, ℕ, [], None, IfOk, OnErr, IsTrue};
ghost use Rattle.ad_base.specs.Limits.{AreWithinStandard};
ghost use Rattle.ad_slots.specs.Places.{slot_at, is_held, held_symbols, held_slots, held_globals, is_held_local, least_free, IsReplaced};
ghost use Rattle.ad_cells.proofs.StackLemmas as codes;
ghost use Rattle.ad_slots.proofs.PlaceLemmas as laws;
ghost use Rattle.ad_flat.specs.Holds.{Holds, IsNumberedBelow};
ghost use Rattle.ad_flat.specs.Laws as own;
ghost use Rattle.ad_flat.specs.Universes.{held_in, most_in, symbols_in};

use crate::axioms::slot_of;
use crate::slots::Slots;
use ad_base::{Limits, Memory, Side};
use ad_bits::Row;
use ad_theory::{Tally, Universe, empty_row};
use ad_tree::{Naming, Noted};
use std::alloc::Global;

/// The axioms of an ontology in numbered slots. An axiom keeps its slot until it is removed, and then the slot is free.
#[derive(Drop)]
pub struct FlatUniverse {
    slots: Slots,
}

impl FlatUniverse {
    /// The universe without axioms, for as many axioms and entities as the limits allow.
    pub fn empty(alloc: Global, limits: &Limits) -> Result<FlatUniverse, Memory>
        requires { AreWithinStandard limits.now }
        ensures slots { IfOk result (λ universe. most_in universe ≡ limits.now.axioms) }
        ensures symbols { IfOk result (λ universe. symbols_in universe ≡ limits.now.entities) }
        ensures empty { IfOk result (λ universe. held_in universe ≡ []) }
    {
        Ok(FlatUniverse {
            slots: Slots::new(alloc, limits)?,
        })
    }

    /// The least free slot; if it is past all slots that there are, none is free.
    pub fn next(&self) -> usize
        ensures { result ≡ least_free (held_in self.now) }
    {
        self.slots.next()
    }

    /// Puts an axiom into the least free slot, with the numbers that its entities have, and says which slot it is. After
    /// want of memory all slots are as before.
    pub fn insert<N: Naming>(
        &mut self,
        alloc: Global,
        noted: &Noted,
        names: &N,
    ) -> Result<u32, Memory>
        requires room { least_free (held_in self.old) < most_in self.old }
        requires named { IsNumberedBelow (symbols_in self.old) (N.number_of names.now) noted.now.axiom }
        ensures next { IfOk result (λ i. i ≡ least_free (held_in self.old)) }
        ensures held { IfOk result (λ i. Holds (N.number_of names.now) (held_in self.new) i noted.now.axiom) }
        ensures others { IfOk result (λ i. (j : ℕ) → j ≢ i → slot_at (held_in self.new) j ≡ slot_at (held_in self.old) j) }
        ensures err { OnErr result (held_in self.new ≡ held_in self.old) }
        ensures slots { most_in self.new ≡ most_in self.old }
        ensures symbols { symbols_in self.new ≡ symbols_in self.old }
    {
        let slot = slot_of(alloc, noted, names)?;
        let nothing = empty_row(alloc, 0)?;
        let is_bottom_global = !slot.is_local(Side::Bottom, &nothing);
        let is_top_global = !slot.is_local(Side::Top, &nothing);
        let i = self.slots.next() as u32;
        self.slots
            .put(alloc, i, slot, is_bottom_global, is_top_global)?;
        Ok(i)
    }

    /// Frees a slot that holds an axiom. It takes no memory.
    pub fn remove(&mut self, i: u32)
        requires { IsTrue (is_held (held_in self.old) i) }
        ensures freed { IsReplaced i None (held_in self.old) (held_in self.new) }
        ensures slots { most_in self.new ≡ most_in self.old }
        ensures symbols { symbols_in self.new ≡ symbols_in self.old }
    {
        self.slots.remove(i);
    }

    /// The same universe once more. It shares axioms with this one.
    pub fn copy(&self, alloc: Global) -> Result<FlatUniverse, Memory>
        ensures entries { IfOk result (λ copy. held_in copy ≡ held_in self.now) }
        ensures slots { IfOk result (λ copy. most_in copy ≡ most_in self.now) }
        ensures symbols { IfOk result (λ copy. symbols_in copy ≡ symbols_in self.now) }
    {
        Ok(FlatUniverse {
            slots: self.slots.copy(alloc)?,
        })
    }
}

impl Universe for FlatUniverse {
    ghost slot_count = { λ u. most_in u };

    ghost symbol_count = { λ u. symbols_in u };

    ghost is_live = { λ u. is_held (held_in u) };

    ghost symbols_of = { λ u. held_symbols (held_in u) };

    ghost slots_of = { λ u. held_slots (held_in u) };

    ghost globals_of = { λ u. held_globals (held_in u) };

    ghost is_local = { λ u. is_held_local (held_in u) };

    ghost small = { λ u. (u.slots.few_slots, u.slots.few_symbols) };

    ghost live_below = { λ u i live. own.live_below u.slots i live };

    ghost symbols_below = { λ u i s live t. own.symbols_below u.slots i s t };

    ghost occurrences = { λ u. laws.occurrences (held_in u) };

    ghost globals = { λ u. laws.globals (held_in u) };

    ghost antitone = { λ u side. laws.antitone codes.codes_shrink (held_in u) side u.slots.covered };

    fn slots(&self) -> u32 {
        self.slots.most()
    }

    fn symbols(&self) -> u32 {
        self.slots.symbols()
    }

    fn live(&self, i: u32) -> bool {
        self.slots.get(i).is_some()
    }

    fn signature(&self, i: u32) -> &[u32] {
        self.slots.signature(i)
    }

    fn occurs(&self, s: u32) -> &[u32] {
        self.slots.occurs(s)
    }

    fn global(&self, side: Side) -> &[u32] {
        self.slots.global(side)
    }

    fn local(&self, side: Side, i: u32, seen: &Row, tally: &mut Tally) -> bool {
        tally.count_test();
        match self.slots.get(i) {
            Some(slot) => slot.is_local(side, seen),
            None => true,
        }
    }
}
