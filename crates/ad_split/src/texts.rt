//! The text of the parts, one after the other.
ghost use Rattle.std.specs.Prelude.{◌≡◌, ◌<◌, ◌^◌, IsTrue, length};
ghost use Rattle.std.specs.List.{flat_map};
ghost use Rattle.ad_bits.specs.Rows.{has, member_count};
ghost use Rattle.ad_decompose.specs.Decomposed.{genuine_of};
ghost use Rattle.ad_io.specs.Sink.{Puts, PutCause};
ghost use Rattle.ad_numbered.specs.Numbered.{order_of};
ghost use Rattle.ad_slots.specs.Places.{is_held};
ghost use Rattle.ad_write.specs.Canonical.{canon_document};
ghost use Rattle.ad_split.specs.Parts.{PutsParts, head_line, numbered, part_line, part_with};
ghost use Rattle.ad_split.specs.Rooms.{IsRoomOf};
ghost use Rattle.ad_split.specs.Slots.{document_by, slot_text};
ghost use Rattle.ad_split.specs.Tops.{top_atoms, tops};

use crate::closure::gather;
use crate::part::Part;
use crate::room::Room;
use ad_base::Kind;
use ad_edition::Edition;
use ad_io::{Sink, Wrote, put_each};
use ad_lines::Decimal;
use ad_ontology_atoms::rows_are_genuine;

/// Writes the parts of this kind one after the other, each the document of a genuine module. It takes no memory.
pub fn write_parts<K: Sink>(
    edition: &Edition,
    kind: Kind,
    parts: &[u32],
    room: &mut Room,
    sink: &mut K,
) -> Wrote
    requires parts { parts.now ≡ top_atoms (genuine_of edition.now.found kind) (order_of edition.now.numbered) }
    requires room { IsRoomOf edition.now.numbered room.old }
    ensures text { PutsParts kind edition.now.shown.axioms (K.written sink.old) (K.written sink.new) result }
    ensures cause { PutCause (K.faults sink.old) (K.faults sink.new) result }
    ensures room { IsRoomOf edition.now.numbered room.new }
{
    edition.laws();
    rows_are_genuine();
    match put_head(parts.len() as u64, sink) {
        Wrote::All => write_each(edition, kind, parts, room, sink),
        Wrote::Failed => Wrote::Failed,
    }
}

// Writes the first line.
fn put_head<K: Sink>(parts: u64, sink: &mut K) -> Wrote
    ensures bytes { Puts (K.written sink.old) (K.written sink.new) result (head_line parts) }
    ensures cause { PutCause (K.faults sink.old) (K.faults sink.new) result }
{
    let parts = Decimal::of(parts);
    put_each(sink, &[b"parts ", parts.as_bytes(), b"\n"])
}

// Writes each part.
fn write_each<K: Sink>(
    edition: &Edition,
    kind: Kind,
    parts: &[u32],
    room: &mut Room,
    sink: &mut K,
) -> Wrote
    requires parts { parts.now ≡ top_atoms (genuine_of edition.now.found kind) (order_of edition.now.numbered) }
    requires room { IsRoomOf edition.now.numbered room.old }
    ensures bytes { Puts (K.written sink.old) (K.written sink.new) result
        (flat_map (slot_text edition.now.numbered (genuine_of edition.now.found kind)) (numbered (tops (genuine_of edition.now.found kind) (order_of edition.now.numbered)))) }
    ensures cause { PutCause (K.faults sink.old) (K.faults sink.new) result }
    ensures room { IsRoomOf edition.now.numbered room.new }
{
    edition.laws();
    let atoms = edition.atoms(kind);
    for i in 0..parts.len() {
        match write_one(edition, kind, i as u64, atoms.first(parts[i]), room, sink) {
            Wrote::All => {}
            Wrote::Failed => return Wrote::Failed,
        }
    }
    Wrote::All
}

// Writes the part of this number, whose atom begins with the slot.
fn write_one<K: Sink>(
    edition: &Edition,
    kind: Kind,
    number: u64,
    slot: u32,
    room: &mut Room,
    sink: &mut K,
) -> Wrote
    requires live { IsTrue (is_held edition.now.numbered.held slot) }
    requires room { IsRoomOf edition.now.numbered room.old }
    ensures bytes { Puts (K.written sink.old) (K.written sink.new) result (slot_text edition.now.numbered (genuine_of edition.now.found kind) (number, slot)) }
    ensures cause { PutCause (K.faults sink.old) (K.faults sink.new) result }
    ensures room { IsRoomOf edition.now.numbered room.new }
{
    edition.laws();
    let Some(members) = edition.rows().row(kind, slot) else {
        unreachable!()
    };
    gather(edition.universe(), members, &mut room.closure);
    let part = Part {
        ontology: edition.ontology(),
        going: &room.going,
        members,
        closure: &room.closure,
    };
    write_part(edition, &part, number, sink)
}

// Writes the line of a part, and its document.
fn write_part<K: Sink>(edition: &Edition, part: &Part, number: u64, sink: &mut K) -> Wrote
    requires { part.now.ontology.now ≡ edition.now.numbered }
    ensures bytes { Puts (K.written sink.old) (K.written sink.new) result (part_with number (member_count part.now.members.now)
        (document_by edition.now.numbered (has part.now.members.now) (has part.now.closure.now))) }
    ensures cause { PutCause (K.faults sink.old) (K.faults sink.new) result }
{
    let bytes = part_bytes(edition, part);
    match put_part_line(number, part.members.count(), bytes, sink) {
        Wrote::All => part.write(sink),
        Wrote::Failed => Wrote::Failed,
    }
}

// How many bytes the document of a part has.
fn part_bytes(edition: &Edition, part: &Part) -> u64
    requires { part.now.ontology.now ≡ edition.now.numbered }
    ensures { result ≡ length (canon_document (document_by edition.now.numbered (has part.now.members.now) (has part.now.closure.now))) }
{
    edition.laws();
    let _bytes = edition.bytes();
    part.size()
}

// Writes the line before a part's document.
fn put_part_line<K: Sink>(number: u64, axioms: u32, bytes: u64, sink: &mut K) -> Wrote
    ensures bytes { Puts (K.written sink.old) (K.written sink.new) result (part_line number axioms bytes) }
    ensures cause { PutCause (K.faults sink.old) (K.faults sink.new) result }
{
    let number = Decimal::of(number);
    let axioms = Decimal::of(u64::from(axioms));
    let bytes = Decimal::of(bytes);
    put_each(
        sink,
        &[
            b"part ",
            number.as_bytes(),
            b" axioms ",
            axioms.as_bytes(),
            b" bytes ",
            bytes.as_bytes(),
            b"\n",
        ],
    )
}
