ghost use Rattle.std.specs.Prelude.{◌<◌, ◌^◌, nat_eq, length, IfOk};
ghost use Rattle.std.specs.List.{IsDistinct};
ghost use Rattle.ad_tables.specs.Rows.{of_kind};
ghost use Rattle.ad_decompose.specs.Decomposed.{AreAtomic};
ghost use Rattle.ad_decomposition.specs.Tables.{AreNested, HaveRows, is_in_row_of};

use ad_atoms::atoms;
use ad_base::{Kind, Memory};
use ad_depend::{Covers, covers};
use ad_tables::{Atoms, Rows};
use std::alloc::Global;
use std::marker::Model;

// The atoms of a kind, and the covers between them.
#[derive(Drop)]
pub(crate) struct OfKind {
    pub(crate) atoms: Atoms,
    pub(crate) covers: Covers,
}

impl Model for OfKind {
    ghost use Rattle.ad_decompose.specs.Decomposed.{Atomic};

    ghost Value = { Atomic };

    ghost view = { λ found. record { atoms = found.atoms; covers = found.covers } };
}

impl OfKind {
    // The atoms of the axioms in these slots, listed in the ontology's order, and their covers, by the rows of their
    // genuine modules.
    pub(crate) fn of(
        alloc: Global,
        rows: &Rows,
        kind: Kind,
        order: &[u32],
    ) -> Result<OfKind, Memory>
        requires few { length order.now < 2 ^ 32 }
        requires distinct { IsDistinct nat_eq order.now }
        requires rows { HaveRows rows.now kind (length (of_kind rows.now kind)) order.now }
        requires nested { AreNested (is_in_row_of rows.now kind) order.now }
        ensures { IfOk result (AreAtomic (is_in_row_of rows.now kind) order.now) }
    {
        let atoms = atoms(alloc, rows, kind, order)?;
        let covers = covers(alloc, rows, kind, &atoms)?;
        Ok(OfKind { atoms, covers })
    }
}
