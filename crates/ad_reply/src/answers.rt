ghost use Rattle.std.specs.Prelude.{◌≡◌, ◌≤◌, length};
ghost use Rattle.ad_base.specs.declared.limits.Kind.{Kind};
ghost use Rattle.ad_entity.specs.Entities.{has_entity};
ghost use Rattle.ad_entity.specs.declared.entities.Entity.{Entity};
ghost use Rattle.ad_io.specs.Sink.{Puts, PutCause};
ghost use Rattle.ad_locality.specs.Signature.{in_signature};
ghost use Rattle.ad_theory.specs.Tally.{IsRaisedBy};
ghost use Rattle.ad_write.specs.Canonical.{canon_document};
ghost use Rattle.ad_module_document.specs.Documents.{HoldModule, IsRoomFor, document_in};
ghost use Rattle.ad_reply.specs.Replies.{accepted, answer_line, answered, reply_bytes};
ghost use Rattle.ad_reply.specs.Written.{AreToolsOf, PutsGenuine, PutsModule};

use crate::counts::CountsText;
use ad_base::Kind;
use ad_edition::{Edition, Receipt};
use ad_io::{Sink, Wrote, put_each};
use ad_lines::Decimal;
use ad_module_document::{Room, found_documents};
use ad_theory::{Extractor, Tally};
use ad_tree::{Noted, Seed};
use ad_write::write_document;

/// Writes the whole ontology of the edition. It takes no memory.
pub fn export_reply<K: Sink>(edition: &Edition, sink: &mut K) -> Wrote
    ensures bytes { Puts (K.written sink.old) (K.written sink.new) result (reply_bytes (answered edition.now.shown.number (canon_document edition.now.shown.axioms))) }
    ensures cause { PutCause (K.faults sink.old) (K.faults sink.new) result }
{
    match put_answer_line(edition.number(), edition.bytes(), sink) {
        Wrote::All => write_document(edition.axioms(), sink),
        Wrote::Failed => Wrote::Failed,
    }
}

/// Writes the module of the edition for the seed, which is found with this bench and room. It takes no memory.
pub fn module_reply<K: Sink, E: Extractor>(
    edition: &Edition,
    kind: Kind,
    seed: &Seed,
    bench: &mut E,
    room: &mut Room,
    sink: &mut K,
    tally: &mut Tally,
) -> Wrote
    requires { AreToolsOf edition.now.limits (E.made_for bench.old) room.old }
    ensures reply { PutsModule kind edition.now.shown seed.now (K.written sink.old) (K.written sink.new) result }
    ensures cause { PutCause (K.faults sink.old) (K.faults sink.new) result }
    ensures tools { AreToolsOf edition.now.limits (E.made_for bench.new) room.new }
    ensures tests { tally.old.tests ≤ tally.new.tests }
    ensures runs { IsRaisedBy 1 tally.old.runs tally.new.runs }
{
    edition.laws();
    let ontology = edition.ontology();
    room.find(ontology, kind, seed, bench, tally);
    put_found(edition, seed, room, sink)
}

/// Writes the module of the edition for the signature of the axiom, which is found with this bench and room. It takes no
/// memory.
pub fn genuine_reply<K: Sink, E: Extractor>(
    edition: &Edition,
    kind: Kind,
    noted: &Noted,
    seed: &Seed,
    bench: &mut E,
    room: &mut Room,
    sink: &mut K,
    tally: &mut Tally,
) -> Wrote
    requires tools { AreToolsOf edition.now.limits (E.made_for bench.old) room.old }
    requires members { (e : Entity) → has_entity seed.now e ≡ in_signature noted.now.axiom e }
    ensures reply { PutsGenuine kind edition.now.shown noted.now (K.written sink.old) (K.written sink.new) result }
    ensures cause { PutCause (K.faults sink.old) (K.faults sink.new) result }
    ensures tools { AreToolsOf edition.now.limits (E.made_for bench.new) room.new }
    ensures tests { tally.old.tests ≤ tally.new.tests }
    ensures runs { IsRaisedBy 1 tally.old.runs tally.new.runs }
{
    module_reply(edition, kind, seed, bench, room, sink, tally)
}

// Writes the module that was found.
fn put_found<K: Sink>(edition: &Edition, seed: &Seed, room: &Room, sink: &mut K) -> Wrote
    requires { IsRoomFor edition.now.limits.axioms edition.now.limits.entities room.now }
    ensures reply { (kind : Kind) → HoldModule kind edition.now.numbered seed.now room.now.members room.now.closure →
        PutsModule kind edition.now.shown seed.now (K.written sink.old) (K.written sink.new) result }
    ensures cause { PutCause (K.faults sink.old) (K.faults sink.new) result }
{
    edition.laws();
    found_documents();
    let bytes = found_bytes(edition, seed, room);
    match put_answer_line(edition.number(), bytes, sink) {
        Wrote::All => room.write_document(edition.ontology(), seed, sink),
        Wrote::Failed => Wrote::Failed,
    }
}

// How many bytes the document of the found module has.
fn found_bytes(edition: &Edition, seed: &Seed, room: &Room) -> u64
    requires { IsRoomFor edition.now.limits.axioms edition.now.limits.entities room.now }
    ensures { result ≡ length (canon_document (document_in edition.now.numbered seed.now room.now.members room.now.closure)) }
{
    edition.laws();
    let _bytes = edition.bytes();
    room.document_size(edition.ontology(), seed)
}

/// Writes what an accepted edit did. It takes no memory.
pub fn edit_reply<K: Sink>(receipt: Receipt, sink: &mut K) -> Wrote
    ensures bytes { Puts (K.written sink.old) (K.written sink.new) result (reply_bytes (accepted receipt)) }
    ensures cause { PutCause (K.faults sink.old) (K.faults sink.new) result }
{
    let counts = CountsText::of(receipt);
    match put_answer_line(receipt.number, counts.len(), sink) {
        Wrote::All => counts.put(sink),
        Wrote::Failed => Wrote::Failed,
    }
}

// Writes the line before a body of that many bytes.
pub(crate) fn put_answer_line<K: Sink>(edition: u32, bytes: u64, sink: &mut K) -> Wrote
    ensures bytes { Puts (K.written sink.old) (K.written sink.new) result (answer_line edition bytes) }
    ensures cause { PutCause (K.faults sink.old) (K.faults sink.new) result }
{
    let edition = Decimal::of(u64::from(edition));
    let bytes = Decimal::of(bytes);
    put_each(
        sink,
        &[b"OK ", edition.as_bytes(), b" ", bytes.as_bytes(), b"\n"],
    )
}
