ghost use Rattle.std.specs.Prelude.{false};
ghost use Rattle.ad_grammar.specs.Names.{SpellsProperty, SpellsIndividual, SpellsLiteral};
ghost use Rattle.ad_grammar.specs.Phrases.{SpellsRange, SpellsClass};
ghost use Rattle.ad_grammar.specs.Faults as form;
ghost use Rattle.ad_phrases.specs.Laws.{IsBuiltOnce, IsNotRefused, IsRefusedOnce, IsBuiltOrRefused};

/// A law on phrases, whatever memory there is: from a token at which one begins, one tree with one end is built, or one
/// name's prefix is the first that isn't known. It does nothing.
pub fn one_phrase()
    ensures class { IsBuiltOnce form.class (SpellsClass false) }
    ensures range { IsBuiltOnce form.range SpellsRange }
    ensures property { IsBuiltOnce form.property SpellsProperty }
    ensures individual { IsBuiltOnce form.individual SpellsIndividual }
    ensures literal { IsBuiltOnce form.literal SpellsLiteral }
    ensures class_is_built { IsNotRefused form.class (SpellsClass false) }
    ensures range_is_built { IsNotRefused form.range SpellsRange }
    ensures property_is_built { IsNotRefused form.property SpellsProperty }
    ensures individual_is_built { IsNotRefused form.individual SpellsIndividual }
    ensures literal_is_built { IsNotRefused form.literal SpellsLiteral }
    ensures refused { IsRefusedOnce }
    ensures class_either { IsBuiltOrRefused form.class (SpellsClass false) }
    ensures range_either { IsBuiltOrRefused form.range SpellsRange }
    ensures property_either { IsBuiltOrRefused form.property SpellsProperty }
    ensures individual_either { IsBuiltOrRefused form.individual SpellsIndividual }
    ensures literal_either { IsBuiltOrRefused form.literal SpellsLiteral }
{}
