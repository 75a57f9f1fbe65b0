ghost use Rattle.std.specs.Prelude.{◌≡◌, ◌<◌, ◌++◌, ◌∷◌, [], length, slice_index_or, IfOk, OnOk, OnErr};
ghost use Rattle.std.specs.Arc.{arc_value};

use ad_base::Memory;
use ad_bits::Row;
use std::alloc::Global;
use std::marker::Model;
use std::sync::Arc;

/// The rows that were found for some tasks, in the tasks' order.
#[derive(Drop)]
pub struct Results {
    rows: Vec<Arc<Row>>,
}

impl Model for Results {
    ghost use Rattle.std.specs.Prelude.{List, Bool, map};
    ghost use Rattle.std.specs.Arc.{arc_value};

    ghost Value = { List (List Bool) };

    ghost view = { λ results. map (λ row. arc_value row) results.rows.items };
}

impl Results {
    /// The results of no tasks.
    pub fn empty(alloc: Global) -> Results
        ensures { result ≡ [] }
    {
        Results {
            rows: Vec::new(alloc),
        }
    }

    /// Appends the row as the result of the next task. After want of memory nothing has changed.
    pub fn push(&mut self, alloc: Global, row: Row) -> Result<(), Memory>
        ensures ok { OnOk result (self.new ≡ self.old ++ row ∷ []) }
        ensures memory { OnErr result (self.new ≡ self.old) }
    {
        self.rows.push(Arc::new(alloc, row)?)?;
        Ok(())
    }

    /// The row of a task.
    pub fn row(&self, task: u32) -> &Row
        requires { task < length self.now }
        ensures { result.now ≡ slice_index_or self.now task [] }
    {
        &self.rows[task as usize]
    }

    /// The row of a task, shared.
    pub fn share(&self, task: u32) -> Result<Arc<Row>, Memory>
        requires { task < length self.now }
        ensures { IfOk result (λ row. arc_value row ≡ slice_index_or self.now task []) }
    {
        Ok(Arc::try_clone(&self.rows[task as usize])?)
    }
}
