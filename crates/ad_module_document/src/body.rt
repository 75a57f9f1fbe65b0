ghost use Rattle.std.specs.Prelude.{◌≡◌, ◌≤◌};
ghost use Rattle.ad_io.specs.Sink.{PutCause};
ghost use Rattle.ad_theory.specs.Numbers.{AreSizesOf};
ghost use Rattle.ad_theory.specs.Tally.{IsRaisedBy};
ghost use Rattle.ad_module_document.specs.Documents.{IsRoomFor, PutsDocument};

use crate::laws::found_documents;
use crate::room::Room;
use ad_base::Kind;
use ad_io::{Sink, Wrote};
use ad_numbered::NumberedOntology;
use ad_theory::{Extractor, Tally};
use ad_tree::Seed;

/// Finds the ontology's module of this kind for the seed, and writes its document. It takes no memory.
pub fn module_body<E: Extractor, K: Sink>(
    ontology: &NumberedOntology,
    kind: Kind,
    seed: &Seed,
    bench: &mut E,
    room: &mut Room,
    sink: &mut K,
    tally: &mut Tally,
) -> Wrote
    requires bench { AreSizesOf (E.made_for bench.old) ontology.now.most ontology.now.symbols }
    requires room { IsRoomFor ontology.now.most ontology.now.symbols room.old }
    ensures document { PutsDocument kind seed.now ontology.now.axioms (K.written sink.old) (K.written sink.new) result }
    ensures cause { PutCause (K.faults sink.old) (K.faults sink.new) result }
    ensures room { IsRoomFor ontology.now.most ontology.now.symbols room.new }
    ensures bench { E.made_for bench.new ≡ E.made_for bench.old }
    ensures counted { tally.old.tests ≤ tally.new.tests }
    ensures runs { IsRaisedBy 1 tally.old.runs tally.new.runs }
{
    ontology.laws();
    found_documents();
    room.find(ontology, kind, seed, bench, tally);
    room.write_document(ontology, seed, sink)
}
