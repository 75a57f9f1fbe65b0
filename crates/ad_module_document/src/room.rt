ghost use Rattle.std.specs.Prelude.{◌≡◌, ◌≤◌, ◌-◌, ◌^◌, length, min, IfOk};
ghost use Rattle.ad_io.specs.Sink.{Puts, PutCause};
ghost use Rattle.ad_theory.specs.Numbers.{AreSizesOf};
ghost use Rattle.ad_theory.specs.Tally.{IsRaisedBy};
ghost use Rattle.ad_write.specs.Canonical.{canon_document};
ghost use Rattle.ad_module_document.specs.Documents.{HoldModule, IsRoomFor, document_in};

use crate::document::{document_size_of, write_document_of};
use crate::found::Found;
use crate::seeds::mark_seed;
use ad_base::{Kind, Limits, Memory};
use ad_bits::Row;
use ad_io::{Sink, Wrote};
use ad_numbered::NumberedOntology;
use ad_theory::{Extractor, Tally, empty_row};
use ad_tree::Seed;
use std::alloc::Global;

/// The rows that finding a module needs, and where it is found.
#[derive(Drop)]
pub struct Room {
    // the numbers of the seed's entities
    pub(crate) seed: Row,
    // the slots of the module
    pub(crate) members: Row,
    // the numbers of the seed, and those in the module's signatures
    pub(crate) closure: Row,
}

impl Room {
    /// Takes all the memory that finding modules within these limits needs.
    pub fn new(alloc: Global, limits: &Limits) -> Result<Room, Memory>
        ensures { IfOk result (IsRoomFor limits.now.axioms limits.now.entities) }
    {
        let seed = empty_row(alloc, limits.entities)?;
        let members = empty_row(alloc, limits.axioms)?;
        Ok(Room {
            closure: empty_row(alloc, limits.entities)?,
            seed,
            members,
        })
    }

    /// Finds the ontology's module of this kind for the seed. It takes no memory.
    pub fn find<E: Extractor>(
        &mut self,
        ontology: &NumberedOntology,
        kind: Kind,
        seed: &Seed,
        bench: &mut E,
        tally: &mut Tally,
    )
        requires bench { AreSizesOf (E.made_for bench.old) ontology.now.most ontology.now.symbols }
        requires room { IsRoomFor ontology.now.most ontology.now.symbols self.old }
        ensures found { HoldModule kind ontology.now seed.now self.new.members self.new.closure }
        ensures room { IsRoomFor ontology.now.most ontology.now.symbols self.new }
        ensures bench { E.made_for bench.new ≡ E.made_for bench.old }
        ensures counted { tally.old.tests ≤ tally.new.tests }
        ensures runs { IsRaisedBy 1 tally.old.runs tally.new.runs }
    {
        mark_seed(ontology, seed, &mut self.seed);
        bench.module(
            ontology.universe(),
            kind,
            &self.seed,
            &mut self.members,
            &mut self.closure,
            tally,
        );
    }

    /// How many bytes the document of the found module has, or the last u64 where it has more. It takes no memory.
    pub fn document_size(&self, ontology: &NumberedOntology, seed: &Seed) -> u64
        requires { IsRoomFor ontology.now.most ontology.now.symbols self.now }
        ensures { result ≡ min (length (canon_document (document_in ontology.now seed.now self.now.members self.now.closure))) (2 ^ 64 - 1) }
    {
        document_size_of(
            ontology,
            &Found {
                ontology,
                seed,
                room: self,
            },
        )
    }

    /// Writes the document of the found module. It takes no memory.
    pub fn write_document<K: Sink>(
        &self,
        ontology: &NumberedOntology,
        seed: &Seed,
        sink: &mut K,
    ) -> Wrote
        requires { IsRoomFor ontology.now.most ontology.now.symbols self.now }
        ensures bytes { Puts (K.written sink.old) (K.written sink.new) result (canon_document (document_in ontology.now seed.now self.now.members self.now.closure)) }
        ensures cause { PutCause (K.faults sink.old) (K.faults sink.new) result }
    {
        write_document_of(
            ontology,
            &Found {
                ontology,
                seed,
                room: self,
            },
            sink,
        )
    }
}
