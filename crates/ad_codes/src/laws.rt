ghost use Rattle.ad_codes.specs.Laws.{CodesAreTrees, CodesAreWithinSignatures, CodesStay};

/// The code of an axiom stands for its tree: it is local exactly where the axiom is, its numbers are those of entities in
/// the axiom's signature, and it stays the same while these have the same numbers.
pub fn codes_are_trees()
    ensures local { CodesAreTrees }
    ensures symbols { CodesAreWithinSignatures }
    ensures stay { CodesStay }
{}
