ghost use Rattle.std.specs.Prelude.{◌≡◌, ◌<◌, ◌^◌, length, IfOk};
ghost use Rattle.ad_command.specs.Command.{of_split};
ghost use Rattle.ad_decompose.specs.Decomposed.{genuine_of};
ghost use Rattle.ad_documents.specs.Answered.{AnswerCause, IsAnswered, IsWritten};
ghost use Rattle.ad_numbered.specs.Numbered.{order_of};
ghost use Rattle.ad_split.specs.Parts.{IsPartsText};
ghost use Rattle.ad_split.specs.Rooms.{IsRoomOf};
ghost use Rattle.ad_split.specs.Tops.{top_atoms};

use crate::answer::{Answer, answer_of};
use crate::ontology::{Unread, edition_of};
use ad_base::{Kind, Memory};
use ad_edition::Edition;
use ad_io::Sink;
use ad_split::{Room, parts, write_parts};
use std::alloc::Global;
use std::hash::RandomState;
use std::thread::Threads;

/// Writes a text's parts of this kind: the documents of the genuine modules of the atoms on which no other atom depends.
/// Threads share the work.
pub fn answer_split<K: Sink>(
    rt: &(impl Threads + Sync),
    alloc: Global,
    keys: RandomState,
    kind: Kind,
    text: &[u8],
    sink: &mut K,
) -> Answer
    requires { length text.now < 2 ^ 32 }
    ensures answered { IsAnswered (of_split kind) text.now (K.written sink.old) (K.written sink.new) result }
    ensures cause { AnswerCause (K.faults sink.old) (K.faults sink.new) result }
{
    match edition_of(rt, alloc, keys, text) {
        Ok(edition) => split(alloc, &edition, kind, sink),
        Err(Unread::Refused(cause)) => Answer::Refused(cause),
        Err(Unread::Memory) => Answer::Memory,
    }
}

// Writes an edition's parts.
fn split<K: Sink>(alloc: Global, edition: &Edition, kind: Kind, sink: &mut K) -> Answer
    ensures written { IsWritten (IsPartsText kind edition.now.shown.axioms) (K.written sink.old) (K.written sink.new) result }
    ensures cause { AnswerCause (K.faults sink.old) (K.faults sink.new) result }
{
    let (parts, mut room) = match tools(alloc, edition, kind) {
        Ok(tools) => tools,
        Err(Memory) => return Answer::Memory,
    };
    answer_of(write_parts(edition, kind, parts.as_slice(), &mut room, sink))
}

// An edition's parts, and what writing them needs.
fn tools(alloc: Global, edition: &Edition, kind: Kind) -> Result<(Vec<u32>, Room), Memory>
    ensures parts { IfOk result (λ tools. tools.0.items ≡ top_atoms (genuine_of edition.now.found kind) (order_of edition.now.numbered)) }
    ensures room { IfOk result (λ tools. IsRoomOf edition.now.numbered tools.1) }
{
    let room = Room::new(alloc, edition)?;
    Ok((parts(alloc, edition, kind)?, room))
}
