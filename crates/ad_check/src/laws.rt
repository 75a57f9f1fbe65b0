ghost use Rattle.ad_check.specs.Laws.{SpelledIsOf, FaultIsInNone, OneFirstFault, NestingIs};

/// What spells a document, an edit, a seed or a single axiom is a text of that form: its check answers Ok.
pub fn spelled_is_accepted()
    ensures { SpelledIsOf }
{}

/// A text with a first fault spells nothing.
pub fn fault_is_in_none()
    ensures { FaultIsInNone }
{}

/// A text has one first fault at most.
pub fn one_first_fault()
    ensures { OneFirstFault }
{}

/// The nesting is the greatest number of left parentheses less right ones, over all fronts of a text.
pub fn nesting_of_fronts()
    ensures { NestingIs }
{}
