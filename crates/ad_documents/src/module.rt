ghost use Rattle.std.specs.Prelude.{◌≡◌, ◌<◌, ◌^◌, length, IfOk};
ghost use Rattle.ad_base.specs.Limits.{AreWithinStandard, standard};
ghost use Rattle.ad_command.specs.Command.{of_module};
ghost use Rattle.ad_reply.specs.Bodies.{IsModuleDocument};
ghost use Rattle.ad_reply.specs.Written.{AreToolsOf};
ghost use Rattle.ad_documents.specs.Answered.{AnswerCause, IsAnswered, IsWritten};

use crate::answer::{Answer, answer_of};
use crate::ontology::{Unread, draft_of};
use ad_base::{Kind, Limits, Memory};
use ad_edition::{Bench, Draft};
use ad_io::Sink;
use ad_module_document::{Room, module_body};
use ad_theory::{Extractor, Tally};
use ad_tree::Seed;
use std::alloc::Global;
use std::hash::RandomState;

/// Writes the document of a text's module of this kind for the seed.
pub fn answer_module<K: Sink>(
    alloc: Global,
    keys: RandomState,
    kind: Kind,
    seed: &Seed,
    text: &[u8],
    sink: &mut K,
) -> Answer
    requires { length text.now < 2 ^ 32 }
    ensures answered { IsAnswered (of_module kind seed.now) text.now (K.written sink.old) (K.written sink.new) result }
    ensures cause { AnswerCause (K.faults sink.old) (K.faults sink.new) result }
{
    match draft_of(alloc, keys, text) {
        Ok(draft) => write_module::<K, Bench>(alloc, &draft, kind, seed, sink),
        Err(Unread::Refused(cause)) => Answer::Refused(cause),
        Err(Unread::Memory) => Answer::Memory,
    }
}

// Writes the document of the module of a draft's ontology.
fn write_module<K: Sink, E: Extractor>(
    alloc: Global,
    draft: &Draft,
    kind: Kind,
    seed: &Seed,
    sink: &mut K,
) -> Answer
    requires { draft.now.next.limits ≡ standard }
    ensures written { IsWritten (IsModuleDocument kind seed.now draft.now.next.shown.axioms) (K.written sink.old) (K.written sink.new) result }
    ensures cause { AnswerCause (K.faults sink.old) (K.faults sink.new) result }
{
    let (mut bench, mut room) = match tools::<E>(alloc, &Limits::standard()) {
        Ok(tools) => tools,
        Err(Memory) => return Answer::Memory,
    };
    answer_of(module_body(
        draft.ontology(),
        kind,
        seed,
        &mut bench,
        &mut room,
        sink,
        &mut Tally::new(),
    ))
}

// What finding a module within these limits needs.
fn tools<E: Extractor>(alloc: Global, limits: &Limits) -> Result<(E, Room), Memory>
    requires { AreWithinStandard limits.now }
    ensures { IfOk result (λ tools. AreToolsOf limits.now (E.made_for tools.0) tools.1) }
{
    let room = Room::new(alloc, limits)?;
    let bench = E::make(alloc, limits)?;
    Ok((bench, room))
}
