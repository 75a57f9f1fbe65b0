//! A part: its axioms by their slots, and the carried ones by the numbers of its entities.
ghost use Rattle.std.specs.Prelude.{◌≡◌, ◌<◌, ◌+◌, ◌-◌, ◌^◌, ◌++◌, None, length, min, slice_index_or};
ghost use Rattle.std.specs.List.{flat_map};
ghost use Rattle.ad_bits.specs.Rows.{has};
ghost use Rattle.ad_io.specs.Sink.{Puts, PutCause};
ghost use Rattle.ad_module_document.specs.Lines.{line_in};
ghost use Rattle.ad_write.specs.Canonical.{canon_document, canon_line, document_foot};
ghost use Rattle.ad_split.specs.Going.{AreGoing};
ghost use Rattle.ad_split.specs.GoingLaws.{going_one};
ghost use Rattle.ad_split.specs.Slots.{document_by, is_about, is_in_part};

use crate::going::Going;
use ad_base::Word;
use ad_bits::Row;
use ad_io::{Sink, Wrote};
use ad_numbered::NumberedOntology;
use ad_syntax_laws::goes_with;
use ad_tree::{EntityKind, Naming, Noted, Seen};
use ad_write::{EMPTY_DOCUMENT, document_length, size, write_foot, write_head, write_line};

// The slots of a part's axioms, and the numbers of the entities in their signatures.
#[derive(Drop)]
pub(crate) struct Part<'a> {
    pub(crate) ontology: &'a NumberedOntology,
    pub(crate) going: &'a [Going],
    pub(crate) members: &'a Row,
    pub(crate) closure: &'a Row,
    ghost goes: { AreGoing ontology.now going.now } by { going_one ontology.now going.now },
    ghost slots: { length members.now ≡ ontology.now.most },
    ghost numbers: { length closure.now ≡ ontology.now.symbols },
}

impl<'a> Seen for Part<'a> {
    ghost member = { λ part. is_about part.ontology.now (has part.closure.now) };

    fn has(&self, kind: EntityKind, name: &Word) -> bool {
        self.ontology.laws();
        match self.ontology.number(kind, name) {
            Some(number) => self.closure.has(number),
            None => false,
        }
    }
}

impl<'a> Part<'a> {
    // Whether the axiom at this place is in the part's document.
    fn takes(&self, place: usize, noted: &Noted) -> bool
        requires within { place < length self.now.ontology.now.axioms }
        requires noted { noted.now ≡ slice_index_or self.now.ontology.now.axioms place noted.now }
        ensures { result ≡ is_in_part self.now.ontology.now (has self.now.members.now) (has self.now.closure.now) noted.now
            (slice_index_or self.now.ontology.now.slots place None) }
    {
        match self.going[place] {
            Going::Logical(slot) => self.members.has(slot),
            Going::With(number) => self.closure.has(number),
            Going::Never => false,
            Going::Asked => goes_with(noted, self),
        }
    }

    // So many bytes, and those of the line of the axiom at this place, if it is in the document; at most the last u64.
    fn with_line(&self, place: usize, noted: &Noted, bytes: u64) -> u64
        requires within { place < length self.now.ontology.now.axioms }
        requires noted { noted.now ≡ slice_index_or self.now.ontology.now.axioms place noted.now }
        ensures { result ≡ min (bytes + length (line_in (is_in_part self.now.ontology.now (has self.now.members.now) (has self.now.closure.now)) noted.now
            (slice_index_or self.now.ontology.now.slots place None))) (2 ^ 64 - 1) }
    {
        if self.takes(place, noted) {
            bytes.saturating_add(size(noted)).saturating_add(1)
        } else {
            bytes
        }
    }

    // How many bytes the document has, or the last u64 where it has more.
    pub(crate) fn size(&self) -> u64
        ensures { result ≡ min (length (canon_document (document_by self.now.ontology.now (has self.now.members.now) (has self.now.closure.now)))) (2 ^ 64 - 1) }
    {
        document_length();
        self.ontology.laws();
        let axioms = self.ontology.axioms();
        let mut bytes = EMPTY_DOCUMENT;
        for i in 0..axioms.len() {
            bytes = self.with_line(i, &axioms[i], bytes);
        }
        bytes
    }

    // Writes the document.
    pub(crate) fn write<K: Sink>(&self, sink: &mut K) -> Wrote
        ensures bytes { Puts (K.written sink.old) (K.written sink.new) result
            (canon_document (document_by self.now.ontology.now (has self.now.members.now) (has self.now.closure.now))) }
        ensures cause { PutCause (K.faults sink.old) (K.faults sink.new) result }
    {
        match write_head(sink) {
            Wrote::All => self.write_body(sink),
            Wrote::Failed => Wrote::Failed,
        }
    }

    // Writes the lines of the document's axioms, and what stands behind them.
    fn write_body<K: Sink>(&self, sink: &mut K) -> Wrote
        ensures bytes { Puts (K.written sink.old) (K.written sink.new) result
            (flat_map canon_line (document_by self.now.ontology.now (has self.now.members.now) (has self.now.closure.now)) ++ document_foot) }
        ensures cause { PutCause (K.faults sink.old) (K.faults sink.new) result }
    {
        match self.write_lines(sink) {
            Wrote::All => write_foot(sink),
            Wrote::Failed => Wrote::Failed,
        }
    }

    // Writes the lines of the document's axioms.
    fn write_lines<K: Sink>(&self, sink: &mut K) -> Wrote
        ensures bytes { Puts (K.written sink.old) (K.written sink.new) result
            (flat_map canon_line (document_by self.now.ontology.now (has self.now.members.now) (has self.now.closure.now))) }
        ensures cause { PutCause (K.faults sink.old) (K.faults sink.new) result }
    {
        self.ontology.laws();
        let axioms = self.ontology.axioms();
        for i in 0..axioms.len() {
            match self.write_taken(i, &axioms[i], sink) {
                Wrote::All => {}
                Wrote::Failed => return Wrote::Failed,
            }
        }
        Wrote::All
    }

    // Writes the line of the axiom at this place, if it is in the document.
    fn write_taken<K: Sink>(&self, place: usize, noted: &Noted, sink: &mut K) -> Wrote
        requires within { place < length self.now.ontology.now.axioms }
        requires noted { noted.now ≡ slice_index_or self.now.ontology.now.axioms place noted.now }
        ensures bytes { Puts (K.written sink.old) (K.written sink.new) result (line_in (is_in_part self.now.ontology.now (has self.now.members.now) (has self.now.closure.now)) noted.now
            (slice_index_or self.now.ontology.now.slots place None)) }
        ensures cause { PutCause (K.faults sink.old) (K.faults sink.new) result }
    {
        if self.takes(place, noted) {
            write_line(noted, sink)
        } else {
            Wrote::All
        }
    }
}
