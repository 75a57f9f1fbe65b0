ghost use Rattle.std.specs.Prelude.{◌≡◌, ◌≤◌, IfOk, IfErr};
ghost use Rattle.ad_command.specs.Command.{most_size, of_generate};
ghost use Rattle.ad_generated.specs.Output.{IsGiven};
ghost use Rattle.ad_io.specs.Sink.{PutCause};

use ad_base::Memory;
use ad_gen::generate;
use ad_io::{Sink, Wrote};
use ad_write::write_document;
use std::alloc::Global;

/// Writes the document of the generated ontology of this size.
pub fn answer_generate<K: Sink>(alloc: Global, size: u32, sink: &mut K) -> Result<Wrote, Memory>
    requires { size ≤ most_size }
    ensures given { IsGiven (of_generate size) (K.written sink.old) (K.written sink.new) result }
    ensures cause { IfOk result (PutCause (K.faults sink.old) (K.faults sink.new)) }
    ensures untouched { IfErr result (λ memory. K.faults sink.new ≡ K.faults sink.old) }
{
    let batch = generate(alloc, size)?;
    Ok(write_document(batch.ops(), sink))
}
