ghost use Rattle.std.specs.Prelude.{◌<◌, ◌^◌, ℕ, Option, length};
ghost use Rattle.ad_command.specs.Command.{of_atoms};
ghost use Rattle.ad_documents.specs.Answered.{AnswerCause, IsAnswered, IsWritten};
ghost use Rattle.ad_documents.specs.Output.{IsAtomsText};

use crate::answer::{Answer, answer_of};
use crate::ontology::{Unread, edition_of};
use ad_base::Kind;
use ad_edition::Edition;
use ad_io::Sink;
use ad_reply::atoms_body;
use std::alloc::Global;
use std::hash::RandomState;
use std::thread::Threads;

/// Writes the list of a text's atoms of this kind, with their covers. Threads share the work.
pub fn answer_atoms<K: Sink>(
    rt: &(impl Threads + Sync),
    alloc: Global,
    keys: RandomState,
    kind: Kind,
    text: &[u8],
    sink: &mut K,
) -> Answer
    requires { length text.now < 2 ^ 32 }
    ensures answered { (workers : Option ℕ) → IsAnswered (of_atoms kind workers) text.now (K.written sink.old) (K.written sink.new) result }
    ensures cause { AnswerCause (K.faults sink.old) (K.faults sink.new) result }
{
    match edition_of(rt, alloc, keys, text) {
        Ok(edition) => write_atoms(&edition, kind, sink),
        Err(Unread::Refused(cause)) => Answer::Refused(cause),
        Err(Unread::Memory) => Answer::Memory,
    }
}

// Writes the list of an edition's atoms.
fn write_atoms<K: Sink>(edition: &Edition, kind: Kind, sink: &mut K) -> Answer
    ensures written { IsWritten (IsAtomsText kind edition.now.shown.axioms) (K.written sink.old) (K.written sink.new) result }
    ensures cause { AnswerCause (K.faults sink.old) (K.faults sink.new) result }
{
    answer_of(atoms_body(edition, kind, sink))
}
