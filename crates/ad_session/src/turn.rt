ghost use Rattle.std.specs.Prelude.{◌≡◌, ◌≢◌, ◌<◌, ◌≤◌, ◌^◌, ℕ, length, Some};
ghost use Rattle.ad_request.specs.declared.request.Request.TheVariants as requests;
ghost use Rattle.ad_edition.specs.Sight.{Sight, Footing};
ghost use Rattle.ad_items.specs.Items.{Bounds, Item, IsItem, bounds_of};
ghost use Rattle.ad_reply.specs.Written.{AreToolsOf};
ghost use Rattle.ad_session.specs.Flows.{flow};
ghost use Rattle.ad_session.specs.Turns.{TurnIs, Replies, turn_of};

use crate::ends::End;
use crate::modules::{answer_genuine, answer_module};
use crate::queries::{answer_atom, answer_atoms, answer_export, answer_stat};
use crate::work::{Tools, Work};
use ad_base::Limits;
use ad_edition::Look;
use ad_gate::{Gate, Point};
use ad_io::{Sink, Source, Wrote};
use ad_items::{Next, Payload, read_item};
use ad_read::{read_document, read_edit};
use ad_reply::{Refusal, refuse};
use ad_request::Request;
use ad_theory::{Extractor, Tally};
use ad_tree::Batch;
use std::alloc::Global;

// What answering one item came to.
#[derive(Drop)]
pub(crate) enum Turn {
    // The item was answered.
    Said,
    // The item is an edit, which isn't answered yet. Where it expects an edition, this is the number.
    Edit(Batch, Option<u64>),
    Ended(End),
}

// Reads one item and answers it, unless it is an edit.
pub(crate) fn take_turn<S: Source, K: Sink, L: Look, G: Gate>(
    alloc: Global,
    source: &mut S,
    sink: &mut K,
    look: &mut L,
    work: &mut Work,
    limits: Limits,
    gate: &G,
    point: Point,
    tally: &mut Tally,
) -> Turn
    requires short { limits.payload < 2 ^ 32 }
    requires work { work.old.limits ≡ L.limits look.old }
    ensures turn { TurnIs (bounds_of limits) limits.depth (L.footing look.old) result (flow (S.left source.old) (S.faults source.old) (K.written sink.old) (K.faults sink.old)) (flow (S.left source.new) (S.faults source.new) (K.written sink.new) (K.faults sink.new)) (L.sight look.old) (L.sight look.new) }
    ensures footing { L.footing look.new ≡ L.footing look.old }
    ensures limits { L.limits look.new ≡ L.limits look.old }
    ensures work { work.new.limits ≡ work.old.limits }
    ensures reads { S.faults source.old ≤ S.faults source.new }
    ensures writes { K.faults sink.old ≤ K.faults sink.new }
{
    match read_item(alloc, source, &mut work.line, limits, gate, point) {
        Next::Item(None, _payload) => turn_of(refuse(Refusal::Request, sink)),
        Next::Item(Some(_request), Payload::Dropped) => turn_of(refuse(Refusal::Memory, sink)),
        Next::Item(Some(request), Payload::Full(payload)) => {
            let payload = payload.as_slice();
            let tools = &mut work.tools;
            reply(alloc, request, payload, sink, look, tools, &limits, tally)
        }
        Next::Quit => Turn::Ended(End::Quit),
        Next::Closed => Turn::Ended(End::Closed),
        Next::Cut => Turn::Ended(End::Cut),
        Next::TooLong => Turn::Ended(End::TooLong),
        Next::Failed => Turn::Ended(End::ReadFault),
    }
}

// Answers a request with its payload, unless it is an edit.
fn reply<K: Sink, L: Look, E: Extractor>(
    alloc: Global,
    request: Request,
    payload: &[u8],
    sink: &mut K,
    look: &mut L,
    tools: &mut Tools<E>,
    limits: &Limits,
    tally: &mut Tally,
) -> Turn
    requires short { length payload.now < 2 ^ 32 }
    requires fit { AreToolsOf (L.limits look.old) (E.made_for tools.old.bench) tools.old.room }
    requires goes_on { request ≢ Request.Quit }
    ensures replies { (bounds : Bounds) (i : Item) → IsItem bounds i → i.asked ≡ Some request → i.payload ≡ payload.now → Replies bounds limits.now.depth (L.footing look.old) i result (K.written sink.old) (K.written sink.new) (K.faults sink.old) (K.faults sink.new) (L.sight look.old) (L.sight look.new) }
    ensures footing { L.footing look.new ≡ L.footing look.old }
    ensures limits { L.limits look.new ≡ L.limits look.old }
    ensures fit { AreToolsOf (L.limits look.old) (E.made_for tools.new.bench) tools.new.room }
    ensures writes { K.faults sink.old ≤ K.faults sink.new }
{
    match request {
        Request::Load(_) => begin_load(alloc, payload, sink, limits),
        Request::Edit(_, expected) => begin_edit(alloc, payload, expected, sink, limits),
        Request::Module(kind, _) => turn_of(answer_module(
            alloc, kind, payload, look, sink, tools, limits, tally,
        )),
        Request::Genuine(kind, _) => turn_of(answer_genuine(
            alloc, kind, payload, look, sink, tools, limits, tally,
        )),
        Request::Atoms(kind) => turn_of(answer_atoms(kind, look, sink)),
        Request::Atom(kind, atom) => turn_of(answer_atom(kind, atom, look, sink)),
        Request::Export => turn_of(answer_export(look, sink)),
        Request::Stat => turn_of(answer_stat(look, sink)),
        Request::Quit => unreachable!(),
    }
}

// Reads the document that the payload spells, as additions.
fn begin_load<K: Sink>(alloc: Global, payload: &[u8], sink: &mut K, limits: &Limits) -> Turn
    requires { length payload.now < 2 ^ 32 }
    ensures replies { (bounds : Bounds) (footing : Footing) (i : Item) (n : ℕ) (seen : Sight) → IsItem bounds i → i.asked ≡ Some (requests.Load n) → i.payload ≡ payload.now → Replies bounds limits.now.depth footing i result (K.written sink.old) (K.written sink.new) (K.faults sink.old) (K.faults sink.new) seen seen }
    ensures writes { K.faults sink.old ≤ K.faults sink.new }
{
    match read_document(alloc, payload, limits) {
        Ok(batch) => Turn::Edit(batch, None),
        Err(cause) => turn_of(refuse(Refusal::Text(cause), sink)),
    }
}

// Reads the edit that the payload spells.
fn begin_edit<K: Sink>(
    alloc: Global,
    payload: &[u8],
    expected: Option<u64>,
    sink: &mut K,
    limits: &Limits,
) -> Turn
    requires { length payload.now < 2 ^ 32 }
    ensures replies { (bounds : Bounds) (footing : Footing) (i : Item) (n : ℕ) (seen : Sight) → IsItem bounds i → i.asked ≡ Some (requests.Edit n expected) → i.payload ≡ payload.now → Replies bounds limits.now.depth footing i result (K.written sink.old) (K.written sink.new) (K.faults sink.old) (K.faults sink.new) seen seen }
    ensures writes { K.faults sink.old ≤ K.faults sink.new }
{
    match read_edit(alloc, payload, limits) {
        Ok(batch) => Turn::Edit(batch, expected),
        Err(cause) => turn_of(refuse(Refusal::Text(cause), sink)),
    }
}

// What a written reply, or a front of it, comes to.
fn turn_of(wrote: Wrote) -> Turn
    ensures { result ≡ turn_of wrote }
{
    match wrote {
        Wrote::All => Turn::Said,
        Wrote::Failed => Turn::Ended(End::WriteFault),
    }
}
