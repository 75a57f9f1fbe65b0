//! The size and the bytes of the document of the axioms that a choice takes.
ghost use Rattle.std.specs.Prelude.{◌≡◌, ◌<◌, ◌≤◌, ◌+◌, ◌-◌, ◌^◌, ◌++◌, ℕ, None, Some, IfSome, length, min, slice_index_or};
ghost use Rattle.std.specs.List.{flat_map};
ghost use Rattle.ad_io.specs.Sink.{Puts, PutCause};
ghost use Rattle.ad_write.specs.Canonical.{canon_document, canon_line, document_foot};
ghost use Rattle.ad_module_document.specs.Documents.{taken_of};
ghost use Rattle.ad_module_document.specs.Lines.{line_in};

use crate::choice::Choice;
use ad_io::{Sink, Wrote};
use ad_numbered::NumberedOntology;
use ad_tree::Noted;
use ad_write::{EMPTY_DOCUMENT, document_length, size, write_foot, write_head, write_line};

// A law: the choice may be asked for each slot.
fn slots_below<C: Choice>(ontology: &NumberedOntology, choice: &C)
    requires { ontology.now.most ≤ C.reach choice.now }
    ensures below { (i slot : ℕ) → slice_index_or ontology.now.slots i None ≡ Some slot → slot < C.reach choice.now }
    ensures long { length ontology.now.slots ≡ length ontology.now.axioms }
{
    ontology.laws();
    let _universe = ontology.universe();
}

/// How many bytes the document of the axioms that the choice takes has, or the last u64 where it has more. It takes no
/// memory.
pub fn document_size_of<C: Choice>(ontology: &NumberedOntology, choice: &C) -> u64
    requires { ontology.now.most ≤ C.reach choice.now }
    ensures { result ≡ min (length (canon_document (taken_of (C.takes choice.now) ontology.now))) (2 ^ 64 - 1) }
{
    document_length();
    slots_below(ontology, choice);
    let axioms = ontology.axioms();
    let slots = ontology.slots();
    let mut bytes = EMPTY_DOCUMENT;
    for i in 0..axioms.len() {
        let slot = slots[i];
        bytes = with_line(choice, &axioms[i], slot, bytes);
    }
    bytes
}

// So many bytes, and those of the axiom's line, if it is in the document; at most the last u64.
fn with_line<C: Choice>(choice: &C, noted: &Noted, slot: Option<u32>, bytes: u64) -> u64
    requires { IfSome slot (λ i. i < C.reach choice.now) }
    ensures { result ≡ min (bytes + length (line_in (C.takes choice.now) noted.now slot)) (2 ^ 64 - 1) }
{
    if choice.takes(noted, slot) {
        bytes.saturating_add(size(noted)).saturating_add(1)
    } else {
        bytes
    }
}

/// Writes the document of the axioms that the choice takes. It takes no memory.
pub fn write_document_of<C: Choice, K: Sink>(
    ontology: &NumberedOntology,
    choice: &C,
    sink: &mut K,
) -> Wrote
    requires { ontology.now.most ≤ C.reach choice.now }
    ensures bytes { Puts (K.written sink.old) (K.written sink.new) result (canon_document (taken_of (C.takes choice.now) ontology.now)) }
    ensures cause { PutCause (K.faults sink.old) (K.faults sink.new) result }
{
    match write_head(sink) {
        Wrote::All => write_body(ontology, choice, sink),
        Wrote::Failed => Wrote::Failed,
    }
}

// Writes the lines of the document's axioms, and what stands behind them.
fn write_body<C: Choice, K: Sink>(ontology: &NumberedOntology, choice: &C, sink: &mut K) -> Wrote
    requires { ontology.now.most ≤ C.reach choice.now }
    ensures bytes { Puts (K.written sink.old) (K.written sink.new) result (flat_map canon_line (taken_of (C.takes choice.now) ontology.now) ++ document_foot) }
    ensures cause { PutCause (K.faults sink.old) (K.faults sink.new) result }
{
    match write_lines(ontology, choice, sink) {
        Wrote::All => write_foot(sink),
        Wrote::Failed => Wrote::Failed,
    }
}

// Writes the lines of the document's axioms.
fn write_lines<C: Choice, K: Sink>(ontology: &NumberedOntology, choice: &C, sink: &mut K) -> Wrote
    requires { ontology.now.most ≤ C.reach choice.now }
    ensures bytes { Puts (K.written sink.old) (K.written sink.new) result (flat_map canon_line (taken_of (C.takes choice.now) ontology.now)) }
    ensures cause { PutCause (K.faults sink.old) (K.faults sink.new) result }
{
    slots_below(ontology, choice);
    let axioms = ontology.axioms();
    let slots = ontology.slots();
    for i in 0..axioms.len() {
        let slot = slots[i];
        match write_chosen(choice, &axioms[i], slot, sink) {
            Wrote::All => {}
            Wrote::Failed => return Wrote::Failed,
        }
    }
    Wrote::All
}

// Writes the axiom's line, if it is in the document.
fn write_chosen<C: Choice, K: Sink>(
    choice: &C,
    noted: &Noted,
    slot: Option<u32>,
    sink: &mut K,
) -> Wrote
    requires { IfSome slot (λ i. i < C.reach choice.now) }
    ensures bytes { Puts (K.written sink.old) (K.written sink.new) result (line_in (C.takes choice.now) noted.now slot) }
    ensures cause { PutCause (K.faults sink.old) (K.faults sink.new) result }
{
    if choice.takes(noted, slot) {
        write_line(noted, sink)
    } else {
        Wrote::All
    }
}
