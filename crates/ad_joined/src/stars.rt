ghost use Rattle.std.specs.Prelude.{◌≡◌, ◌≤◌, ◌<◌, ◌+◌, ◌^◌, ◌&&◌, ℕ, Bool, List, [], IsTrue, IfOk, OnOk, length, map, slice_index_or};
ghost use Rattle.std.specs.Arc.{arc_value};
ghost use Rattle.std.specs.List.{All, AllZip};
ghost use Rattle.ad_base.specs.declared.limits.Kind.TheVariants.{Star};
ghost use Rattle.ad_base.specs.declared.limits.Side.{Side};
ghost use Rattle.ad_base.specs.declared.limits.Side.TheVariants.{Bottom, Top};
ghost use Rattle.ad_base.specs.Limits.{AreWithinStandard};
ghost use Rattle.ad_bits.specs.Rows.{has};
ghost use Rattle.ad_groups.specs.GenuineRows.{IsGenuineRow};
ghost use Rattle.ad_joined.specs.Known.{IsPart};
ghost use Rattle.ad_joined.specs.Searched.{IsSideRow};
ghost use Rattle.ad_joined.specs.Stars.{AreStars};
ghost use Rattle.ad_theory.specs.Alternation.{IsAboveStar};
ghost use Rattle.ad_theory.specs.Module.{IsStar};
ghost use Rattle.ad_theory.specs.Numbers.{among, logic_of, AreSizesOf, IsNumberedModule};
ghost use Rattle.ad_theory.specs.Tally.{IsRaisedBy};

use crate::known::Known;
use crate::whole::copied;
use ad_base::{Limits, Memory};
use ad_bits::Row;
use ad_extract::Queue;
use ad_star::Starred;
use ad_theory::{Extractor, Tally, Universe, empty_row};
use std::alloc::Global;
use std::sync::Arc;

// What finds star modules within what the modules of the two sides have in common, with the room that it needs, and a
// star module that is known.
#[derive(Drop)]
struct Stars {
    starred: Starred<Queue>,
    known: Known,
    pending: Vec<u32>,
    seed: Row,
    closure: Row,
    start: Row,
    out: Row,
}

// Puts these symbols into the row, and no others.
fn fill(row: &mut Row, symbols: &[u32])
    requires { (s : ℕ) → IsTrue (among symbols.now s) → s < length row.old }
    ensures members { (s : ℕ) → has row.new s ≡ among symbols.now s }
    ensures size { length row.new ≡ length row.old }
{
    row.clear();
    for symbol in symbols {
        row.set(*symbol);
    }
}

// Puts what two rows have in common into `both`. `room` is room.
fn meet(both: &mut Row, room: &mut Row, left: &Row, right: &Row)
    requires both { length both.old ≡ length left.now }
    requires room { length room.old ≡ length left.now }
    requires right { length right.now ≡ length left.now }
    ensures members { (i : ℕ) → has both.new i ≡ (has left.now i && has right.now i) }
    ensures both { length both.new ≡ length left.now }
    ensures room { length room.new ≡ length left.now }
{
    both.copy_from(left);
    room.copy_from(left);
    room.minus_with(right);
    both.minus_with(room);
}

impl Stars {
    // Takes the memory that finding star modules needs.
    fn new(alloc: Global, limits: &Limits) -> Result<Stars, Memory>
        requires { AreWithinStandard limits.now }
        ensures { IfOk result (λ stars. (symbols_of : ℕ → List ℕ) (local : Side → (ℕ → Bool) → ℕ → Bool) (live : ℕ → Bool) →
            AreStars symbols_of local live limits.now.axioms limits.now.entities stars) }
    {
        Ok(Stars {
            starred: Starred::make(alloc, limits)?,
            known: Known::nothing(alloc, limits.axioms, limits.entities)?,
            pending: Vec::with_capacity(alloc, limits.entities as usize)?,
            seed: empty_row(alloc, limits.entities)?,
            closure: empty_row(alloc, limits.entities)?,
            start: empty_row(alloc, limits.axioms)?,
            out: empty_row(alloc, limits.axioms)?,
        })
    }

    // Puts the signature of the slot's axiom into `seed`, and what its modules on the two sides have in common into
    // `start`.
    fn begin<U: Universe>(&mut self, universe: &U, slot: u32, bottom: &Row, top: &Row)
        requires stars { AreStars (U.symbols_of universe.now) (U.is_local universe.now) (U.is_live universe.now)
            (U.slot_count universe.now) (U.symbol_count universe.now) self.old }
        requires live { IsTrue (U.is_live universe.now slot) }
        requires bottom { IsSideRow (logic_of (U.symbols_of universe.now) (U.is_local universe.now Bottom)) (U.is_live universe.now)
            (U.slot_count universe.now) slot bottom.now }
        requires top { IsSideRow (logic_of (U.symbols_of universe.now) (U.is_local universe.now Top)) (U.is_live universe.now)
            (U.slot_count universe.now) slot top.now }
        ensures stars { AreStars (U.symbols_of universe.now) (U.is_local universe.now) (U.is_live universe.now)
            (U.slot_count universe.now) (U.symbol_count universe.now) self.new }
        ensures seed { has self.new.seed ≡ among (U.symbols_of universe.now slot) }
        ensures above { IsAboveStar (logic_of (U.symbols_of universe.now) (U.is_local universe.now Bottom))
            (logic_of (U.symbols_of universe.now) (U.is_local universe.now Top)) (has self.new.seed) (λ i. IsTrue (U.is_live universe.now i)) (has self.new.start) }
    {
        fill(&mut self.seed, universe.signature(slot));
        meet(&mut self.start, &mut self.out, bottom, top);
    }

    // Finds the star module for what is in `seed`.
    fn find<U: Universe>(&mut self, universe: &U, tally: &mut Tally)
        requires stars { AreStars (U.symbols_of universe.now) (U.is_local universe.now) (U.is_live universe.now)
            (U.slot_count universe.now) (U.symbol_count universe.now) self.old }
        requires above { IsAboveStar (logic_of (U.symbols_of universe.now) (U.is_local universe.now Bottom))
            (logic_of (U.symbols_of universe.now) (U.is_local universe.now Top)) (has self.old.seed) (λ i. IsTrue (U.is_live universe.now i)) (has self.old.start) }
        ensures stars { AreStars (U.symbols_of universe.now) (U.is_local universe.now) (U.is_live universe.now)
            (U.slot_count universe.now) (U.symbol_count universe.now) self.new }
        ensures found { IsNumberedModule Star (U.symbols_of universe.now) (U.is_local universe.now) (has self.old.seed)
            (λ i. IsTrue (U.is_live universe.now i)) (has self.new.out) (has self.new.closure) }
        ensures counted { tally.old.tests ≤ tally.new.tests }
        ensures runs { IsRaisedBy 1 tally.old.runs tally.new.runs }
    {
        self.starred.star_within(
            universe,
            &self.seed,
            &self.start,
            &mut self.out,
            &mut self.closure,
            tally,
        );
    }

    // Finds the row of the slot's star module, which is known from then on where it is better.
    fn anew<U: Universe>(
        &mut self,
        alloc: Global,
        universe: &U,
        slot: u32,
        tally: &mut Tally,
    ) -> Result<Arc<Row>, Memory>
        requires stars { AreStars (U.symbols_of universe.now) (U.is_local universe.now) (U.is_live universe.now)
            (U.slot_count universe.now) (U.symbol_count universe.now) self.old }
        requires live { IsTrue (U.is_live universe.now slot) }
        requires seed { has self.old.seed ≡ among (U.symbols_of universe.now slot) }
        requires above { IsAboveStar (logic_of (U.symbols_of universe.now) (U.is_local universe.now Bottom))
            (logic_of (U.symbols_of universe.now) (U.is_local universe.now Top)) (has self.old.seed) (λ i. IsTrue (U.is_live universe.now i)) (has self.old.start) }
        ensures stars { OnOk result (AreStars (U.symbols_of universe.now) (U.is_local universe.now) (U.is_live universe.now)
            (U.slot_count universe.now) (U.symbol_count universe.now) self.new) }
        ensures found { IfOk result (λ row. IsGenuineRow (U.symbols_of universe.now) (U.is_local universe.now) (U.is_live universe.now)
            (U.slot_count universe.now) Star slot (arc_value row)) }
        ensures counted { tally.old.tests ≤ tally.new.tests }
        ensures runs { OnOk result (IsRaisedBy 1 tally.old.runs tally.new.runs) }
    {
        self.find(universe, tally);
        let row = shared(alloc, &self.out)?;
        self.known.learn(slot, &row, &self.closure)?;
        Ok(row)
    }

    // Whether the known module is its own module on both sides for what is in `seed`.
    fn is_part<U: Universe>(&mut self, universe: &U, tally: &mut Tally) -> bool
        requires stars { AreStars (U.symbols_of universe.now) (U.is_local universe.now) (U.is_live universe.now)
            (U.slot_count universe.now) (U.symbol_count universe.now) self.old }
        ensures stars { AreStars (U.symbols_of universe.now) (U.is_local universe.now) (U.is_live universe.now)
            (U.slot_count universe.now) (U.symbol_count universe.now) self.new }
        ensures seed { self.new.seed ≡ self.old.seed }
        ensures start { self.new.start ≡ self.old.start }
        ensures known { self.new.known ≡ self.old.known }
        ensures part { IsTrue result → IsPart (U.symbols_of universe.now) (U.is_local universe.now) (U.is_live universe.now)
            (has self.new.seed) (arc_value self.new.known.row) }
        ensures counted { tally.old.tests ≤ tally.new.tests }
        ensures runs { tally.new.runs ≡ tally.old.runs }
    {
        self.known.is_part(
            universe,
            &self.seed,
            &self.start,
            &mut self.pending,
            &mut self.out,
            &mut self.closure,
            tally,
        )
    }

    // The row of the known module, shared, where it is the slot's star module too: all symbols are those of its axioms.
    fn again<U: Universe>(
        &mut self,
        universe: &U,
        slot: u32,
        tally: &mut Tally,
    ) -> Result<Arc<Row>, Memory>
        requires stars { AreStars (U.symbols_of universe.now) (U.is_local universe.now) (U.is_live universe.now)
            (U.slot_count universe.now) (U.symbol_count universe.now) self.old }
        requires live { IsTrue (U.is_live universe.now slot) }
        requires seed { has self.old.seed ≡ among (U.symbols_of universe.now slot) }
        requires part { IsPart (U.symbols_of universe.now) (U.is_local universe.now) (U.is_live universe.now)
            (has self.old.seed) (arc_value self.old.known.row) }
        requires all { (s : ℕ) → IsTrue (has self.old.seed s) → IsTrue (has self.old.known.closure s) }
        ensures stars { OnOk result (AreStars (U.symbols_of universe.now) (U.is_local universe.now) (U.is_live universe.now)
            (U.slot_count universe.now) (U.symbol_count universe.now) self.new) }
        ensures found { IfOk result (λ row. IsGenuineRow (U.symbols_of universe.now) (U.is_local universe.now) (U.is_live universe.now)
            (U.slot_count universe.now) Star slot (arc_value row)) }
        ensures counted { tally.old.tests ≤ tally.new.tests }
        ensures runs { OnOk result (IsRaisedBy 1 tally.old.runs tally.new.runs) }
    {
        tally.count_run();
        let row = Arc::try_clone(&self.known.row)?;
        self.known.add(slot);
        Ok(row)
    }

    // Finds the star module for what is in `seed`, of which the known module is a part: the rest of it is the star module
    // of the other axioms, for the symbols of both.
    fn join<U: Universe>(&mut self, universe: &U, tally: &mut Tally)
        requires stars { AreStars (U.symbols_of universe.now) (U.is_local universe.now) (U.is_live universe.now)
            (U.slot_count universe.now) (U.symbol_count universe.now) self.old }
        requires above { IsAboveStar (logic_of (U.symbols_of universe.now) (U.is_local universe.now Bottom))
            (logic_of (U.symbols_of universe.now) (U.is_local universe.now Top)) (has self.old.seed) (λ i. IsTrue (U.is_live universe.now i)) (has self.old.start) }
        requires part { IsPart (U.symbols_of universe.now) (U.is_local universe.now) (U.is_live universe.now)
            (has self.old.seed) (arc_value self.old.known.row) }
        ensures stars { AreStars (U.symbols_of universe.now) (U.is_local universe.now) (U.is_live universe.now)
            (U.slot_count universe.now) (U.symbol_count universe.now) self.new }
        ensures found { IsStar (logic_of (U.symbols_of universe.now) (U.is_local universe.now Bottom))
            (logic_of (U.symbols_of universe.now) (U.is_local universe.now Top)) (has self.old.seed) (λ i. IsTrue (U.is_live universe.now i)) (has self.new.out) }
        ensures counted { tally.old.tests ≤ tally.new.tests }
        ensures runs { IsRaisedBy 1 tally.old.runs tally.new.runs }
    {
        self.known.take_out(&mut self.seed, &mut self.start);
        self.starred.star_of_part(
            universe,
            &self.seed,
            &self.start,
            &mut self.out,
            &mut self.closure,
            tally,
        );
        self.known.add_to(&mut self.out);
    }

    // The row of the star module for the signature of the slot's axiom, whose modules on the two sides these are.
    fn row<U: Universe>(
        &mut self,
        alloc: Global,
        universe: &U,
        slot: u32,
        bottom: &Row,
        top: &Row,
        tally: &mut Tally,
    ) -> Result<Arc<Row>, Memory>
        requires stars { AreStars (U.symbols_of universe.now) (U.is_local universe.now) (U.is_live universe.now)
            (U.slot_count universe.now) (U.symbol_count universe.now) self.old }
        requires live { IsTrue (U.is_live universe.now slot) }
        requires bottom { IsSideRow (logic_of (U.symbols_of universe.now) (U.is_local universe.now Bottom)) (U.is_live universe.now)
            (U.slot_count universe.now) slot bottom.now }
        requires top { IsSideRow (logic_of (U.symbols_of universe.now) (U.is_local universe.now Top)) (U.is_live universe.now)
            (U.slot_count universe.now) slot top.now }
        ensures stars { OnOk result (AreStars (U.symbols_of universe.now) (U.is_local universe.now) (U.is_live universe.now)
            (U.slot_count universe.now) (U.symbol_count universe.now) self.new) }
        ensures found { IfOk result (λ row. IsGenuineRow (U.symbols_of universe.now) (U.is_local universe.now) (U.is_live universe.now)
            (U.slot_count universe.now) Star slot (arc_value row)) }
        ensures counted { tally.old.tests ≤ tally.new.tests }
        ensures runs { OnOk result (IsRaisedBy 1 tally.old.runs tally.new.runs) }
    {
        self.begin(universe, slot, bottom, top);
        if !self.is_part(universe, tally) {
            return self.anew(alloc, universe, slot, tally);
        }
        if self.known.has_all(&self.seed) {
            return self.again(universe, slot, tally);
        }
        self.join(universe, tally);
        let row = shared(alloc, &self.out)?;
        Ok(row)
    }
}

// A copy of the row, to be shared.
fn shared(alloc: Global, row: &Row) -> Result<Arc<Row>, Memory>
    ensures { IfOk result (λ copy. arc_value copy ≡ row.now) }
{
    let copy = copied(alloc, row)?;
    Ok(Arc::new(alloc, copy)?)
}

// The row at a place.
fn row_at(rows: &[Arc<Row>], at: usize) -> &Row
    requires { at < length (map (λ row. arc_value row) rows.now) }
    ensures { result.now ≡ slice_index_or (map (λ row. arc_value row) rows.now) at [] }
{
    &rows[at]
}

// The rows of the star modules for the signatures of these slots' axioms, by those of the two sides.
fn rows_by<U: Universe>(
    alloc: Global,
    universe: &U,
    stars: &mut Stars,
    slots: &[u32],
    bottom: &[Arc<Row>],
    top: &[Arc<Row>],
    tally: &mut Tally,
) -> Result<Vec<Arc<Row>>, Memory>
    requires stars { AreStars (U.symbols_of universe.now) (U.is_local universe.now) (U.is_live universe.now)
        (U.slot_count universe.now) (U.symbol_count universe.now) stars.old }
    requires live { All (λ slot. IsTrue (U.is_live universe.now slot)) slots.now }
    requires bottom { AllZip (IsSideRow (logic_of (U.symbols_of universe.now) (U.is_local universe.now Bottom)) (U.is_live universe.now)
        (U.slot_count universe.now)) slots.now (map (λ row. arc_value row) bottom.now) }
    requires top { AllZip (IsSideRow (logic_of (U.symbols_of universe.now) (U.is_local universe.now Top)) (U.is_live universe.now)
        (U.slot_count universe.now)) slots.now (map (λ row. arc_value row) top.now) }
    requires fits { tally.old.runs + length slots.now < 2 ^ 64 }
    ensures found { IfOk result (λ rows. AllZip (IsGenuineRow (U.symbols_of universe.now) (U.is_local universe.now)
        (U.is_live universe.now) (U.slot_count universe.now) Star) slots.now (map (λ row. arc_value row) rows.items)) }
    ensures counted { tally.old.tests ≤ tally.new.tests }
    ensures runs { OnOk result (tally.new.runs ≡ tally.old.runs + length slots.now) }
{
    let mut rows = Vec::with_capacity(alloc, slots.len())?;
    for at in 0..slots.len() {
        let row = stars.row(
            alloc,
            universe,
            slots[at],
            row_at(bottom, at),
            row_at(top, at),
            tally,
        )?;
        rows.push(row)?;
    }
    Ok(rows)
}

/// The rows of the star modules for the signatures of these slots' axioms, by those of their modules on the two sides.
pub fn star_rows<U: Universe>(
    alloc: Global,
    universe: &U,
    limits: &Limits,
    slots: &[u32],
    bottom: &[Arc<Row>],
    top: &[Arc<Row>],
    tally: &mut Tally,
) -> Result<Vec<Arc<Row>>, Memory>
    requires limits { AreWithinStandard limits.now }
    requires sizes { AreSizesOf limits.now (U.slot_count universe.now) (U.symbol_count universe.now) }
    requires live { All (λ slot. IsTrue (U.is_live universe.now slot)) slots.now }
    requires bottom { AllZip (IsSideRow (logic_of (U.symbols_of universe.now) (U.is_local universe.now Bottom)) (U.is_live universe.now)
        (U.slot_count universe.now)) slots.now (map (λ row. arc_value row) bottom.now) }
    requires top { AllZip (IsSideRow (logic_of (U.symbols_of universe.now) (U.is_local universe.now Top)) (U.is_live universe.now)
        (U.slot_count universe.now)) slots.now (map (λ row. arc_value row) top.now) }
    requires fits { tally.old.runs + length slots.now < 2 ^ 64 }
    ensures found { IfOk result (λ rows. AllZip (IsGenuineRow (U.symbols_of universe.now) (U.is_local universe.now)
        (U.is_live universe.now) (U.slot_count universe.now) Star) slots.now (map (λ row. arc_value row) rows.items)) }
    ensures counted { tally.old.tests ≤ tally.new.tests }
    ensures runs { OnOk result (tally.new.runs ≡ tally.old.runs + length slots.now) }
{
    let mut stars = Stars::new(alloc, limits)?;
    rows_by(alloc, universe, &mut stars, slots, bottom, top, tally)
}
