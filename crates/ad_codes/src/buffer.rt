ghost use Rattle.std.specs.Prelude.{◌≡◌, ◌∷◌, []};
ghost use Rattle.ad_codes.specs.Encoding.{Adds, Counts};

use ad_cells::Cell;
use std::alloc::Global;

// A code while it is written. Once it has failed, for want of memory or at a list that is too long, nothing more is put.
#[derive(Drop)]
pub(crate) struct Buffer {
    pub(crate) cells: Vec<Cell>,
    pub(crate) failed: bool,
}

impl Buffer {
    // The buffer without cells. It takes no memory.
    pub(crate) fn new(alloc: Global) -> Buffer
        ensures { result.cells.items ≡ [] }
    {
        Buffer {
            cells: Vec::new(alloc),
            failed: false,
        }
    }

    // Puts a cell at the end.
    pub(crate) fn put(&mut self, cell: Cell)
        ensures { Adds self.old self.new (cell ∷ []) }
    {
        if self.failed {
            return;
        }
        match self.cells.push(cell) {
            Ok(()) => {}
            Err(_) => self.failed = true,
        }
    }

    // How many there are, as a cell says it.
    pub(crate) fn count(&mut self, many: usize) -> u32
        ensures { Counts self.old self.new many result }
    {
        match u32::try_from(many) {
            Ok(count) => count,
            Err(_) => {
                self.failed = true;
                0
            }
        }
    }
}
