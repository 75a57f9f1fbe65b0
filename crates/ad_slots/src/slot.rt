ghost use Rattle.std.specs.Prelude.{◌≡◌, IsTrue, IfOk};
ghost use Rattle.ad_bits.specs.Rows.{has};
ghost use Rattle.ad_slots.specs.Held.{IsCovered, is_local_held};

use ad_base::Side;
use ad_bits::Row;
use ad_cells::{Cell, Test, is_local};
use std::marker::Model;

/// An axiom in a slot.
#[derive(Drop)]
pub struct Slot {
    test: Test,
    code: Vec<Cell>,
    symbols: Vec<u32>,
    ghost covers: { IsCovered code.items symbols.items },
}

impl Model for Slot {
    ghost use Rattle.std.specs.Prelude.{ℕ, List, refl};
    ghost use Rattle.std.specs.Coded.{code_by, coded×, coded_list, coded_ℕ};
    ghost use Rattle.ad_cells.specs.declared.cell.Cell.{Cell};
    ghost use Rattle.ad_cells.specs.declared.cell.Test.{Test};
    ghost use Rattle.ad_cells.specs.contracts.cell.Cell as a_cell;
    ghost use Rattle.ad_cells.specs.contracts.cell.Test as a_test;
    ghost use Rattle.ad_slots.specs.Held.{Held, IsCovered};

    ghost Value = { Held };

    ghost coded = { code_by (Test × (List Cell × List ℕ)) (coded× a_test.the_row.coded (coded× (coded_list a_cell.the_row.coded) (coded_list coded_ℕ))) (λ h. (h.test, (h.code, h.symbols))) (λ p. record { test = p.0; code = p.1.0; symbols = p.1.1 }) (λ _. refl) };

    ghost view = { λ s. record { test = s.test; code = s.code.items; symbols = s.symbols.items } };

    ghost invariant = { λ s. IsCovered s.code.items s.symbols.items };
}

impl Slot {
    /// An axiom with this test and this code, in whose signature the symbols stand.
    pub fn new(test: Test, code: Vec<Cell>, symbols: Vec<u32>) -> Slot
        requires { IsCovered code.items symbols.items }
        ensures { result ≡ record { test = test; code = code.items; symbols = symbols.items } }
    {
        Slot {
            test,
            code,
            symbols,
        }
    }

    /// The numbers of the entities in its signature.
    pub fn symbols(&self) -> &[u32]
        ensures { result.now ≡ self.now.symbols }
    {
        self.symbols.as_slice()
    }

    /// Whether it is local for the numbers in the row.
    pub fn is_local(&self, side: Side, seen: &Row) -> bool
        ensures { result ≡ is_local_held side (has seen.now) self.now }
    {
        is_local(self.test, self.code.as_slice(), side, seen)
    }
}
