ghost use Rattle.ad_edition.specs.Laws.{EntriesDiffer, ReplayGoesOn, FrontsAreLogs};

/// What is proved of every log.
pub fn log_laws()
    ensures entries { EntriesDiffer }
    ensures replay { ReplayGoesOn }
    ensures fronts { FrontsAreLogs }
{}
