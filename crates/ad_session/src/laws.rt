ghost use Rattle.ad_session.specs.Laws.{EnteredAlwaysGrows, LooksStayEntered, MachinesRunAsSessions};
ghost use Rattle.ad_session.specs.Complete.{LinesAreRefused, QueriesAreAnswered, EditsAreMade, EditsAreLimited, MovedEditsAreRefused, TextsAreRefused};

use ad_read::one_outcome;

/// What is proved of every session of a machine: it runs as each session does, and what it has entered only grows.
pub fn session_laws()
    ensures runs { MachinesRunAsSessions }
    ensures entered { EnteredAlwaysGrows }
    ensures looks { LooksStayEntered }
{}

/// What is proved of every reply of a session of a machine: what can be answered is answered, unless memory is wanting,
/// and each refusal has its cause.
pub fn reply_laws()
    ensures lines { LinesAreRefused }
    ensures queries { QueriesAreAnswered }
    ensures edits { EditsAreMade }
    ensures limits { EditsAreLimited }
    ensures moved { MovedEditsAreRefused }
    ensures texts { TextsAreRefused }
{
    one_outcome();
}
