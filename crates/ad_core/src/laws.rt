ghost use Rattle.ad_edition.specs.Sight.{IsSure};
ghost use Rattle.ad_edition.specs.Events.{EditionsFollowTheLog};
ghost use Rattle.ad_core.specs.Sights.{sight_of};

/// What is proved of every list of events, and of every look of a machine.
pub fn machine_laws()
    ensures editions { EditionsFollowTheLog }
    ensures sure { IsSure sight_of }
{}
