//! Queries that take no memory. Each is answered on the edition that the look gives.
ghost use Rattle.std.specs.Prelude.{◌≡◌, ℕ, Some};
ghost use Rattle.ad_io.specs.Sink.{PutCause};
ghost use Rattle.ad_request.specs.declared.request.Request.TheVariants as requests;
ghost use Rattle.ad_items.specs.Items.{Item};
ghost use Rattle.ad_reply.specs.Written.{PutsAtom};
ghost use Rattle.ad_session.specs.Turns.{Speaks, refusal_of};

use ad_base::Kind;
use ad_edition::{Edition, Look, NoLook};
use ad_io::{Sink, Wrote};
use ad_reply::{Refusal, Told, atom_reply, atoms_reply, export_reply, refuse, stat_reply};

// Answers `EXPORT` on the edition that the look gives.
pub(crate) fn answer_export<K: Sink, L: Look>(look: &mut L, sink: &mut K) -> Wrote
    ensures speaks { (depth : ℕ) (i : Item) → i.asked ≡ Some requests.Export → Speaks depth (L.footing look.old) (L.sight look.old) (L.sight look.new) i (K.written sink.old) (K.written sink.new) result }
    ensures cause { PutCause (K.faults sink.old) (K.faults sink.new) result }
    ensures footing { L.footing look.new ≡ L.footing look.old }
    ensures limits { L.limits look.new ≡ L.limits look.old }
{
    match look.look() {
        Ok(()) => export_reply(look.edition(), sink),
        Err(cause) => refuse(refusal_of(cause), sink),
    }
}

// Answers `STAT` on the edition that the look gives.
pub(crate) fn answer_stat<K: Sink, L: Look>(look: &mut L, sink: &mut K) -> Wrote
    ensures speaks { (depth : ℕ) (i : Item) → i.asked ≡ Some requests.Stat → Speaks depth (L.footing look.old) (L.sight look.old) (L.sight look.new) i (K.written sink.old) (K.written sink.new) result }
    ensures cause { PutCause (K.faults sink.old) (K.faults sink.new) result }
    ensures footing { L.footing look.new ≡ L.footing look.old }
    ensures limits { L.limits look.new ≡ L.limits look.old }
{
    match look.look() {
        Ok(()) => stat_reply(look.edition(), sink),
        Err(cause) => refuse(refusal_of(cause), sink),
    }
}

// Answers `ATOMS` on the edition that the look gives.
pub(crate) fn answer_atoms<K: Sink, L: Look>(kind: Kind, look: &mut L, sink: &mut K) -> Wrote
    ensures speaks { (depth : ℕ) (i : Item) → i.asked ≡ Some (requests.Atoms kind) → Speaks depth (L.footing look.old) (L.sight look.old) (L.sight look.new) i (K.written sink.old) (K.written sink.new) result }
    ensures cause { PutCause (K.faults sink.old) (K.faults sink.new) result }
    ensures footing { L.footing look.new ≡ L.footing look.old }
    ensures limits { L.limits look.new ≡ L.limits look.old }
{
    match look.look() {
        Ok(()) => atoms_reply(look.edition(), kind, sink),
        Err(cause) => refuse(refusal_of(cause), sink),
    }
}

// Answers `ATOM` on the edition that the look gives.
pub(crate) fn answer_atom<K: Sink, L: Look>(
    kind: Kind,
    atom: u64,
    look: &mut L,
    sink: &mut K,
) -> Wrote
    ensures speaks { (depth : ℕ) (i : Item) → i.asked ≡ Some (requests.Atom kind atom) → Speaks depth (L.footing look.old) (L.sight look.old) (L.sight look.new) i (K.written sink.old) (K.written sink.new) result }
    ensures cause { PutCause (K.faults sink.old) (K.faults sink.new) result }
    ensures footing { L.footing look.new ≡ L.footing look.old }
    ensures limits { L.limits look.new ≡ L.limits look.old }
{
    match look.look() {
        Ok(()) => put_atom(look.edition(), kind, atom, sink),
        Err(cause) => refuse(refusal_of(cause), sink),
    }
}

// Writes the axioms of the atom, or how many atoms there are.
fn put_atom<K: Sink>(edition: &Edition, kind: Kind, atom: u64, sink: &mut K) -> Wrote
    ensures written { PutsAtom kind atom edition.now.shown (K.written sink.old) (K.written sink.new) result }
    ensures cause { PutCause (K.faults sink.old) (K.faults sink.new) result }
{
    match atom_reply(edition, kind, atom, sink) {
        Told::All => Wrote::All,
        Told::NoAtom { count } => refuse(
            Refusal::Atom {
                edition: edition.number(),
                count,
            },
            sink,
        ),
        Told::Failed => Wrote::Failed,
    }
}

// What a look that failed is answered with.
pub(crate) fn refusal_of(cause: NoLook) -> Refusal
    ensures { result ≡ refusal_of cause }
{
    match cause {
        NoLook::Shut => Refusal::Shut,
        NoLook::Memory => Refusal::Memory,
    }
}
