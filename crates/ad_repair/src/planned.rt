ghost use Rattle.std.specs.Prelude.{◌≡◌, ℕ, IfOk, length};
ghost use Rattle.ad_tables.specs.Rows.{Tables};
ghost use Rattle.ad_decomposition.specs.Affected.{Theory};
ghost use Rattle.ad_decomposition.specs.Tables.{AreGenuine};
ghost use Rattle.ad_repair.specs.Plans.{Planned, AreNumbersBelow, AreResults, IsPlanFor};

use crate::filling::fill;
use ad_base::{Kind, Memory};
use ad_tables::{Results, Rows};
use ad_theory::Task;
use std::marker::Model;

/// Which genuine modules are to be found anew, and the rows that stay.
#[derive(Drop)]
pub struct Plan {
    tasks: Vec<Task>,
    kept: Rows,
    bottom: Vec<Option<u32>>,
    top: Vec<Option<u32>>,
    star: Vec<Option<u32>>,
}

impl Model for Plan {
    ghost use Rattle.std.specs.Prelude.{length};
    ghost use Rattle.ad_repair.specs.Plans.{Planned, AreNumbersBelow};

    ghost Value = { Planned };

    ghost view = { λ plan. record {
      tasks = plan.tasks.items;
      kept = plan.kept;
      bottom = plan.bottom.items;
      top = plan.top.items;
      star = plan.star.items;
    } };

    ghost invariant = { λ plan. AreNumbersBelow (length plan.tasks.items) plan.bottom.items × AreNumbersBelow (length plan.tasks.items) plan.top.items
        × AreNumbersBelow (length plan.tasks.items) plan.star.items };
}

impl Plan {
    // A plan of these tasks, with the rows that stay and the number of each slot's task.
    pub(crate) fn of(
        tasks: Vec<Task>,
        kept: Rows,
        bottom: Vec<Option<u32>>,
        top: Vec<Option<u32>>,
        star: Vec<Option<u32>>,
    ) -> Plan
        requires bottom { AreNumbersBelow (length tasks.items) bottom.items }
        requires top { AreNumbersBelow (length tasks.items) top.items }
        requires star { AreNumbersBelow (length tasks.items) star.items }
        ensures { result ≡ record { tasks = tasks.items; kept = kept; bottom = bottom.items; top = top.items; star = star.items } }
    {
        Plan {
            tasks,
            kept,
            bottom,
            top,
            star,
        }
    }

    /// The modules to find.
    pub fn tasks(&self) -> &[Task]
        ensures { result.now ≡ self.now.tasks }
    {
        &self.tasks
    }

    /// The rows of all slots: those that stay, and the results of the tasks.
    pub fn join(self, results: Results) -> Result<Rows, Memory>
        requires { length results ≡ length self.tasks }
        ensures { IfOk result (λ rows. (theory : Theory) (slots : ℕ) → IsPlanFor theory slots self → AreResults theory slots self.tasks results →
            AreGenuine theory.symbols theory.local theory.live slots rows) }
    {
        let mut rows = self.kept;
        fill(&mut rows, Kind::Bottom, &self.bottom, &results)?;
        fill(&mut rows, Kind::Top, &self.top, &results)?;
        fill(&mut rows, Kind::Star, &self.star, &results)?;
        Ok(rows)
    }
}
