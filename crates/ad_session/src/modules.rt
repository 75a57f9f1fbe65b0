//! Queries for modules. Each payload is read before the look, and the module is of the edition that the look gives.
ghost use Rattle.std.specs.Prelude.{◌≡◌, ◌<◌, ◌^◌, ℕ, length, Some};
ghost use Rattle.ad_entity.specs.Entities.{has_entity};
ghost use Rattle.ad_entity.specs.declared.entities.Entity.{Entity};
ghost use Rattle.ad_locality.specs.Signature.{in_signature};
ghost use Rattle.ad_read.specs.Texts.{IsSeed, IsSingle};
ghost use Rattle.ad_io.specs.Sink.{PutCause};
ghost use Rattle.ad_request.specs.declared.request.Request.TheVariants as requests;
ghost use Rattle.ad_items.specs.Items.{Item};
ghost use Rattle.ad_reply.specs.Written.{AreToolsOf, PutsGenuine, PutsModule};
ghost use Rattle.ad_session.specs.Turns.{Speaks};

use crate::queries::refusal_of;
use crate::work::Tools;
use ad_base::{Kind, Limits, Memory};
use ad_edition::{Edition, Look};
use ad_io::{Sink, Wrote};
use ad_read::{read_axiom, read_seed};
use ad_reply::{Refusal, genuine_reply, module_reply, refuse};
use ad_signature::signature;
use ad_theory::{Extractor, Tally};
use ad_tree::{Noted, Seed};
use std::alloc::Global;

// Answers `MODULE` on the edition that the look gives, for the seed that the payload spells.
pub(crate) fn answer_module<K: Sink, L: Look, E: Extractor>(
    alloc: Global,
    kind: Kind,
    payload: &[u8],
    look: &mut L,
    sink: &mut K,
    tools: &mut Tools<E>,
    limits: &Limits,
    tally: &mut Tally,
) -> Wrote
    requires short { length payload.now < 2 ^ 32 }
    requires fit { AreToolsOf (L.limits look.old) (E.made_for tools.old.bench) tools.old.room }
    ensures speaks { (i : Item) (n : ℕ) → i.asked ≡ Some (requests.Module kind n) → i.payload ≡ payload.now → Speaks limits.now.depth (L.footing look.old) (L.sight look.old) (L.sight look.new) i (K.written sink.old) (K.written sink.new) result }
    ensures cause { PutCause (K.faults sink.old) (K.faults sink.new) result }
    ensures footing { L.footing look.new ≡ L.footing look.old }
    ensures limits { L.limits look.new ≡ L.limits look.old }
    ensures fit { AreToolsOf (L.limits look.old) (E.made_for tools.new.bench) tools.new.room }
{
    match read_seed(alloc, payload, limits) {
        Ok(seed) => look_at_module(kind, &seed, look, sink, tools, tally),
        Err(cause) => refuse(Refusal::Text(cause), sink),
    }
}

// The same for a seed that was read.
fn look_at_module<K: Sink, L: Look, E: Extractor>(
    kind: Kind,
    seed: &Seed,
    look: &mut L,
    sink: &mut K,
    tools: &mut Tools<E>,
    tally: &mut Tally,
) -> Wrote
    requires { AreToolsOf (L.limits look.old) (E.made_for tools.old.bench) tools.old.room }
    ensures speaks { (depth : ℕ) (i : Item) (n : ℕ) → i.asked ≡ Some (requests.Module kind n) → IsSeed depth i.payload seed.now → Speaks depth (L.footing look.old) (L.sight look.old) (L.sight look.new) i (K.written sink.old) (K.written sink.new) result }
    ensures cause { PutCause (K.faults sink.old) (K.faults sink.new) result }
    ensures footing { L.footing look.new ≡ L.footing look.old }
    ensures limits { L.limits look.new ≡ L.limits look.old }
    ensures fit { AreToolsOf (L.limits look.old) (E.made_for tools.new.bench) tools.new.room }
{
    match look.look() {
        Ok(()) => put_module(look.edition(), kind, seed, sink, tools, tally),
        Err(cause) => refuse(refusal_of(cause), sink),
    }
}

// Writes the module. It takes no memory.
fn put_module<K: Sink, E: Extractor>(
    edition: &Edition,
    kind: Kind,
    seed: &Seed,
    sink: &mut K,
    tools: &mut Tools<E>,
    tally: &mut Tally,
) -> Wrote
    requires { AreToolsOf edition.now.limits (E.made_for tools.old.bench) tools.old.room }
    ensures written { PutsModule kind edition.now.shown seed.now (K.written sink.old) (K.written sink.new) result }
    ensures cause { PutCause (K.faults sink.old) (K.faults sink.new) result }
    ensures fit { AreToolsOf edition.now.limits (E.made_for tools.new.bench) tools.new.room }
{
    module_reply(
        edition,
        kind,
        seed,
        &mut tools.bench,
        &mut tools.room,
        sink,
        tally,
    )
}

// Answers `GENUINE` on the edition that the look gives, for the axiom that the payload spells.
pub(crate) fn answer_genuine<K: Sink, L: Look, E: Extractor>(
    alloc: Global,
    kind: Kind,
    payload: &[u8],
    look: &mut L,
    sink: &mut K,
    tools: &mut Tools<E>,
    limits: &Limits,
    tally: &mut Tally,
) -> Wrote
    requires short { length payload.now < 2 ^ 32 }
    requires fit { AreToolsOf (L.limits look.old) (E.made_for tools.old.bench) tools.old.room }
    ensures speaks { (i : Item) (n : ℕ) → i.asked ≡ Some (requests.Genuine kind n) → i.payload ≡ payload.now → Speaks limits.now.depth (L.footing look.old) (L.sight look.old) (L.sight look.new) i (K.written sink.old) (K.written sink.new) result }
    ensures cause { PutCause (K.faults sink.old) (K.faults sink.new) result }
    ensures footing { L.footing look.new ≡ L.footing look.old }
    ensures limits { L.limits look.new ≡ L.limits look.old }
    ensures fit { AreToolsOf (L.limits look.old) (E.made_for tools.new.bench) tools.new.room }
{
    match read_axiom(alloc, payload, limits) {
        Ok(noted) => look_for_axiom(alloc, kind, &noted, look, sink, tools, tally),
        Err(cause) => refuse(Refusal::Text(cause), sink),
    }
}

// The same for an axiom that was read.
fn look_for_axiom<K: Sink, L: Look, E: Extractor>(
    alloc: Global,
    kind: Kind,
    noted: &Noted,
    look: &mut L,
    sink: &mut K,
    tools: &mut Tools<E>,
    tally: &mut Tally,
) -> Wrote
    requires { AreToolsOf (L.limits look.old) (E.made_for tools.old.bench) tools.old.room }
    ensures speaks { (depth : ℕ) (i : Item) (n : ℕ) → i.asked ≡ Some (requests.Genuine kind n) → IsSingle depth i.payload noted.now → Speaks depth (L.footing look.old) (L.sight look.old) (L.sight look.new) i (K.written sink.old) (K.written sink.new) result }
    ensures cause { PutCause (K.faults sink.old) (K.faults sink.new) result }
    ensures footing { L.footing look.new ≡ L.footing look.old }
    ensures limits { L.limits look.new ≡ L.limits look.old }
    ensures fit { AreToolsOf (L.limits look.old) (E.made_for tools.new.bench) tools.new.room }
{
    match signature(alloc, noted) {
        Ok(seed) => look_at_genuine(kind, noted, &seed, look, sink, tools, tally),
        Err(Memory) => refuse(Refusal::Memory, sink),
    }
}

// The same with the axiom's signature.
fn look_at_genuine<K: Sink, L: Look, E: Extractor>(
    kind: Kind,
    noted: &Noted,
    seed: &Seed,
    look: &mut L,
    sink: &mut K,
    tools: &mut Tools<E>,
    tally: &mut Tally,
) -> Wrote
    requires fit { AreToolsOf (L.limits look.old) (E.made_for tools.old.bench) tools.old.room }
    requires seed { (e : Entity) → has_entity seed.now e ≡ in_signature noted.now.axiom e }
    ensures speaks { (depth : ℕ) (i : Item) (n : ℕ) → i.asked ≡ Some (requests.Genuine kind n) → IsSingle depth i.payload noted.now → Speaks depth (L.footing look.old) (L.sight look.old) (L.sight look.new) i (K.written sink.old) (K.written sink.new) result }
    ensures cause { PutCause (K.faults sink.old) (K.faults sink.new) result }
    ensures footing { L.footing look.new ≡ L.footing look.old }
    ensures limits { L.limits look.new ≡ L.limits look.old }
    ensures fit { AreToolsOf (L.limits look.old) (E.made_for tools.new.bench) tools.new.room }
{
    match look.look() {
        Ok(()) => put_genuine(look.edition(), kind, noted, seed, sink, tools, tally),
        Err(cause) => refuse(refusal_of(cause), sink),
    }
}

// Writes the genuine module. It takes no memory.
fn put_genuine<K: Sink, E: Extractor>(
    edition: &Edition,
    kind: Kind,
    noted: &Noted,
    seed: &Seed,
    sink: &mut K,
    tools: &mut Tools<E>,
    tally: &mut Tally,
) -> Wrote
    requires fit { AreToolsOf edition.now.limits (E.made_for tools.old.bench) tools.old.room }
    requires seed { (e : Entity) → has_entity seed.now e ≡ in_signature noted.now.axiom e }
    ensures written { PutsGenuine kind edition.now.shown noted.now (K.written sink.old) (K.written sink.new) result }
    ensures cause { PutCause (K.faults sink.old) (K.faults sink.new) result }
    ensures fit { AreToolsOf edition.now.limits (E.made_for tools.new.bench) tools.new.room }
{
    genuine_reply(
        edition,
        kind,
        noted,
        seed,
        &mut tools.bench,
        &mut tools.room,
        sink,
        tally,
    )
}
