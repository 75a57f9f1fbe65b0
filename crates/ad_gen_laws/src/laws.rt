ghost use Rattle.ad_gen_laws.specs.Laws.{AreAdded, AreDistinct, AreWithinLimits};

/// The axioms of a generated ontology are distinct, so its additions to no axioms give just these.
pub fn generated_are_distinct()
    ensures distinct { AreDistinct }
    ensures added { AreAdded }
{}

/// A generated ontology passes no limit of the program.
pub fn generated_fit()
    ensures { AreWithinLimits }
{}
