ghost use Rattle.ad_apply.specs.Laws.{StaysDistinct, CountsAddUp};

/// What is proved of every batch, whatever the ontology.
pub fn batch_laws()
    ensures distinct { StaysDistinct }
    ensures counts { CountsAddUp }
{}
