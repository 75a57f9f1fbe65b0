//! What copies of a universe share.
ghost use Rattle.std.specs.Prelude.{◌≡◌, IfOk};
ghost use Rattle.std.specs.Arc.{arc_value};
ghost use Rattle.ad_slots.specs.Held.{Held};

use ad_base::Memory;
use ad_slots::Slot;
use std::alloc::{AllocError, Global};
use std::marker::Model;
use std::sync::Arc;

// An axiom that copies of a universe share.
#[derive(Drop)]
pub(crate) struct Entry {
    slot: Arc<Slot>,
}

impl Model for Entry {
    ghost use Rattle.std.specs.Arc.{arc_value};
    ghost use Rattle.ad_slots.specs.Held.{Held};
    ghost use Rattle.ad_slots.specs.contracts.slot.Slot as slots;

    ghost Value = { Held };

    ghost coded = { slots.the_row.coded };

    ghost view = { λ e. arc_value e.slot };
}

// The same axiom once more.
impl Clone for Entry {
    ghost is_clone = { λ entry copy. copy ≡ entry };

    fn clone(&self) -> Result<Entry, AllocError> {
        Ok(Entry {
            slot: self.slot.clone()?,
        })
    }
}

impl Entry {
    pub(crate) fn new(alloc: Global, slot: Slot) -> Result<Entry, Memory>
        ensures { IfOk result (λ entry. entry ≡ slot) }
    {
        match Arc::new(alloc, slot) {
            Ok(slot) => Ok(Entry { slot }),
            Err(_) => Err(Memory),
        }
    }

    pub(crate) fn slot(&self) -> &Slot
        ensures { result.now ≡ self.now }
    {
        &self.slot
    }
}
