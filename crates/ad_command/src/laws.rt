ghost use Rattle.ad_command.specs.Asks.{AsksForOneThing};
ghost use Rattle.ad_command.specs.Command.{SpellsOneCommand};

/// What is proved of all words: they spell one command at most.
pub fn command_laws()
    ensures { SpellsOneCommand }
{}

/// And they ask for one thing only.
pub fn one_asking()
    ensures { AsksForOneThing }
{}
