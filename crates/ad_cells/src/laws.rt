ghost use Rattle.ad_cells.specs.Codes.{CodesShrink};

/// A law: an axiom that is local is local where fewer of its own numbers are seen.
pub fn codes_shrink()
    ensures { CodesShrink }
{}
