ghost use Rattle.ad_grammar.specs.Faults.{document, edit, seed, single};
ghost use Rattle.ad_grammar.specs.Texts.{SpellsEdit, SpellsSeed, SpellsSingle};
ghost use Rattle.ad_read.specs.Laws.{SpellsOnce, IsNotRefused, IsRefusedOnce, SpellsOrIsRefused};
ghost use Rattle.ad_read.specs.Texts.{SpellsAdditions};

/// What is proved of every text, whatever memory there is: it spells one thing and has no cause to be refused, or it
/// has one cause to be refused. It does nothing.
pub fn one_outcome()
    ensures documents { SpellsOnce document SpellsAdditions }
    ensures edits { SpellsOnce edit SpellsEdit }
    ensures seeds { SpellsOnce seed SpellsSeed }
    ensures singles { SpellsOnce single SpellsSingle }
    ensures document_is_read { IsNotRefused document SpellsAdditions }
    ensures edit_is_read { IsNotRefused edit SpellsEdit }
    ensures seed_is_read { IsNotRefused seed SpellsSeed }
    ensures single_is_read { IsNotRefused single SpellsSingle }
    ensures refused { IsRefusedOnce }
    ensures document_either { SpellsOrIsRefused document SpellsAdditions }
    ensures edit_either { SpellsOrIsRefused edit SpellsEdit }
    ensures seed_either { SpellsOrIsRefused seed SpellsSeed }
    ensures single_either { SpellsOrIsRefused single SpellsSingle }
{}
