ghost use Rattle.std.specs.Prelude.{◌≡◌, ◌≤◌, ◌<◌, ◌↔◌, ◌*◌, ◌^◌, ℕ, [], nat_eq, length, IsFalse, IsTrue, IfOk};
ghost use Rattle.std.specs.List.{Contains, IsDistinct};
ghost use Rattle.ad_base.specs.declared.limits.Kind.{Kind};
ghost use Rattle.ad_base.specs.declared.limits.Kind.TheVariants.{Bottom, Top};
ghost use Rattle.ad_base.specs.Limits.{AreWithinStandard};
ghost use Rattle.ad_decompose.specs.Decomposed.{AreAtomic, IsDecomposition, atomic_of, genuine_of};
ghost use Rattle.ad_decomposition.specs.Tables.{AreNested, HaveRows, is_in_row_of};
ghost use Rattle.ad_groups.specs.Signatures.{signature_count};
ghost use Rattle.ad_tables.specs.Rows.{of_kind};
ghost use Rattle.ad_theory.specs.Numbers.{AreSizesOf};
ghost use Rattle.ad_theory.specs.Tally.{IsRaisedBy};

use crate::of_kind::OfKind;
use ad_base::{Kind, Limits, Memory};
use ad_depend::Covers;
use ad_genuine::scratch;
use ad_tables::{Atoms, Rows};
use ad_theory::{Tally, Universe};
use std::alloc::Global;
use std::marker::Model;
use std::thread::Threads;

/// The decomposition of an ontology: the genuine modules of its axioms, and for each kind the atoms with their covers.
#[derive(Drop)]
pub struct Decomposition {
    rows: Rows,
    bottom: OfKind,
    top: OfKind,
    star: OfKind,
}

impl Model for Decomposition {
    ghost use Rattle.ad_decompose.specs.Decomposed.{Decomposed};

    ghost Value = { Decomposed };

    ghost view = { λ found. record { tables = found.rows; bottom = found.bottom; top = found.top; star = found.star } };
}

// The atoms and covers of the two sides.
fn of_sides(alloc: Global, rows: &Rows, order: &[u32]) -> Result<(OfKind, OfKind), Memory>
    requires few { length order.now < 2 ^ 32 }
    requires distinct { IsDistinct nat_eq order.now }
    requires rows { (kind : Kind) → HaveRows rows.now kind (length (of_kind rows.now kind)) order.now }
    requires nested { (kind : Kind) → AreNested (is_in_row_of rows.now kind) order.now }
    ensures bottom { IfOk result (λ found. AreAtomic (is_in_row_of rows.now Bottom) order.now found.0) }
    ensures top { IfOk result (λ found. AreAtomic (is_in_row_of rows.now Top) order.now found.1) }
{
    let bottom = OfKind::of(alloc, rows, Kind::Bottom, order)?;
    let top = OfKind::of(alloc, rows, Kind::Top, order)?;
    Ok((bottom, top))
}

impl Decomposition {
    // The atoms and covers of every kind, by the rows of genuine modules.
    fn by_rows(alloc: Global, rows: Rows, order: &[u32]) -> Result<Decomposition, Memory>
        requires few { length order.now < 2 ^ 32 }
        requires distinct { IsDistinct nat_eq order.now }
        requires rows { (kind : Kind) → HaveRows rows kind (length (of_kind rows kind)) order.now }
        requires nested { (kind : Kind) → AreNested (is_in_row_of rows kind) order.now }
        ensures tables { IfOk result (λ found. found.tables ≡ rows) }
        ensures atomic { IfOk result (λ found. (kind : Kind) → AreAtomic (genuine_of found kind) order.now (atomic_of found kind)) }
    {
        let star = OfKind::of(alloc, &rows, Kind::Star, order)?;
        let (bottom, top) = of_sides(alloc, &rows, order)?;
        Ok(Decomposition {
            rows,
            bottom,
            top,
            star,
        })
    }

    /// The decomposition of a universe without axioms.
    pub fn empty<U: Universe>(alloc: Global, universe: &U) -> Result<Decomposition, Memory>
        requires { (i : ℕ) → IsFalse (U.is_live universe.now i) }
        ensures { IfOk result (IsDecomposition (U.symbols_of universe.now) (U.is_local universe.now) (U.is_live universe.now)
            (U.slot_count universe.now) []) }
    {
        let rows = Rows::new(alloc, universe.slots())?;
        Decomposition::by_rows(alloc, rows, &[])
    }

    /// Finds the decomposition of the live axioms, listed in the ontology's order, from scratch. Threads share the work.
    pub fn of<U: Universe + Sync>(
        rt: &(impl Threads + Sync),
        alloc: Global,
        universe: &U,
        limits: &Limits,
        order: &[u32],
        tally: &mut Tally,
    ) -> Result<Decomposition, Memory>
        requires limits { AreWithinStandard limits.now }
        requires sizes { AreSizesOf limits.now (U.slot_count universe.now) (U.symbol_count universe.now) }
        requires live { (i : ℕ) → Contains order.now i ↔ IsTrue (U.is_live universe.now i) }
        requires distinct { IsDistinct nat_eq order.now }
        ensures found { IfOk result (IsDecomposition (U.symbols_of universe.now) (U.is_local universe.now) (U.is_live universe.now)
            (U.slot_count universe.now) order.now) }
        ensures runs { IfOk result (λ found. IsRaisedBy (3 * signature_count (U.symbols_of universe.now) (U.is_live universe.now) (U.slot_count universe.now))
            tally.old.runs tally.new.runs) }
        ensures tests { tally.old.tests ≤ tally.new.tests }
        ensures counted { tally.old.runs ≤ tally.new.runs }
    {
        let rows = scratch::<U>(rt, alloc, universe, limits, tally)?;
        Decomposition::by_rows(alloc, rows, order)
    }

    /// The genuine modules of all live axioms.
    pub fn rows(&self) -> &Rows
        ensures { result.now ≡ self.now.tables }
    {
        &self.rows
    }

    // What was found of a kind.
    fn of_kind(&self, kind: Kind) -> &OfKind
        ensures { result.now ≡ atomic_of self.now kind }
    {
        match kind {
            Kind::Bottom => &self.bottom,
            Kind::Top => &self.top,
            Kind::Star => &self.star,
        }
    }

    /// The atoms of a kind.
    pub fn atoms(&self, kind: Kind) -> &Atoms
        ensures { result.now ≡ (atomic_of self.now kind).atoms }
    {
        &self.of_kind(kind).atoms
    }

    /// The covers between the atoms of a kind.
    pub fn covers(&self, kind: Kind) -> &Covers
        ensures { result.now ≡ (atomic_of self.now kind).covers }
    {
        &self.of_kind(kind).covers
    }
}
