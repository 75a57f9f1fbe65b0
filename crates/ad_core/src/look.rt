ghost use Rattle.ad_core.specs.Sights.{sight_of, footing_of};
ghost use Rattle.ad_edition.specs.State.{entered_by};

use crate::machine::Machine;
use ad_edition::{Edition, Look, NoLook};

impl Look for Machine {
    ghost sight = { sight_of };

    ghost shown = { λ machine. entered_by machine machine.session };

    ghost footing = { footing_of };

    ghost limits = { λ machine. machine.limits };

    // The session that looks enters the whole log. It takes no memory, and never fails.
    fn look(&mut self) -> Result<(), NoLook> {
        self.look_on();
        Ok(())
    }

    fn edition(&self) -> &Edition {
        self.shown()
    }
}
