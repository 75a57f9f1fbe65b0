ghost use Rattle.std.specs.Prelude.{◌≡◌, List, IsOk};
ghost use Rattle.ad_base.specs.declared.limits.Limits.{Limits};
ghost use Rattle.ad_edition.specs.Log.{Logged};
ghost use Rattle.ad_edition.specs.Edition.{IsEditionOf, limited_of};
ghost use Rattle.ad_edition.specs.Sight.{Sight, Footing, LookIs, Reaches};

use crate::edition::Edition;

/// Why a look shows no newer edition: the place of the session is shut, or memory is wanting.
#[derive(Clone, Copy, Debug, PartialEq, Eq, Hash)]
pub enum NoLook {
    Shut,
    Memory,
}

/// What lends a session the newest edition. A look waits for nobody.
pub trait Look {
    ghost sight: { Self → Sight };

    // the log whose edition is lent
    ghost shown: { Self → List Logged };

    ghost footing: { Self → Footing };

    ghost limits: { Self → Limits };

    /// Enters a log that goes on from the one entered before and from every log that the session was
    /// told. At Ok its edition is lent from then on.
    fn look(&mut self) -> Result<(), NoLook>
        ensures looks { LookIs result (sight self.old) (sight self.new) }
        ensures reaches { IsOk result → Reaches (footing self.old) (sight self.new).entered }
        ensures shown { IsOk result → shown self.new ≡ (sight self.new).entered }
        ensures footing { footing self.new ≡ footing self.old }
        ensures limits { limits self.new ≡ limits self.old };

    /// The edition at hand.
    fn edition(&self) -> &Edition
        ensures { IsEditionOf (limits self.now) (shown self.now) (limited_of result.now) };
}
