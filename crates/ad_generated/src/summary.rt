ghost use Rattle.std.specs.Prelude.{◌≡◌, ◌≤◌, ℕ, [], Option, None, IfOk, IfErr};
ghost use Rattle.ad_apply.specs.Apply.{applied};
ghost use Rattle.ad_base.specs.Limits.{standard};
ghost use Rattle.ad_base.specs.declared.limits.Which.{Which};
ghost use Rattle.ad_command.specs.Command.{most_size, of_summary};
ghost use Rattle.ad_edition.specs.Limit.{passed};
ghost use Rattle.ad_edition.specs.declared.receipts.Refused.TheVariants as refusals;
ghost use Rattle.ad_gen.specs.Generated.{generated};
ghost use Rattle.ad_generated.specs.Output.{IsGiven};
ghost use Rattle.ad_io.specs.Sink.{PutCause};

use ad_base::{Limits, Memory};
use ad_edition::{Draft, Edition, Refused};
use ad_gen::generate;
use ad_gen_laws::{generated_are_distinct, generated_fit};
use ad_io::{Sink, Wrote};
use ad_summary::summary_body;
use ad_theory::Tally;
use ad_tree::Batch;
use std::alloc::Global;
use std::hash::RandomState;
use std::thread::Threads;

/// Writes the summary of the generated ontology of this size. Threads share the work.
pub fn answer_summary<K: Sink>(
    rt: &(impl Threads + Sync),
    alloc: Global,
    keys: RandomState,
    size: u32,
    sink: &mut K,
) -> Result<Wrote, Memory>
    requires { size ≤ most_size }
    ensures given { (workers : Option ℕ) → IsGiven (of_summary size workers) (K.written sink.old) (K.written sink.new) result }
    ensures cause { IfOk result (PutCause (K.faults sink.old) (K.faults sink.new)) }
    ensures untouched { IfErr result (λ memory. K.faults sink.new ≡ K.faults sink.old) }
{
    let edition = generated_edition(rt, alloc, keys, size)?;
    Ok(summary_body(&edition, sink))
}

// The edition that the generated ontology makes.
fn generated_edition(
    rt: &(impl Threads + Sync),
    alloc: Global,
    keys: RandomState,
    size: u32,
) -> Result<Edition, Memory>
    requires { size ≤ most_size }
    ensures { IfOk result (λ edition. edition.shown.axioms ≡ generated size) }
{
    generated_are_distinct();
    generated_fit();
    let batch = generate(alloc, size)?;
    let draft = first_draft(alloc, keys, &batch)?;
    draft.fresh(rt, alloc, &mut Tally::new())
}

// The edition that these operations make of no axioms, to be finished.
fn first_draft(alloc: Global, keys: RandomState, batch: &Batch) -> Result<Draft, Memory>
    requires { passed standard 0 (applied [] batch.now) ≡ None }
    ensures { IfOk result (λ draft. draft.next.shown.axioms ≡ applied [] batch.now) }
{
    let first = Edition::empty(alloc, keys, Limits::standard())?;
    match first.begin(alloc, batch, None) {
        Ok(draft) => Ok(draft),
        Err(cause) => Err(wanting(cause)),
    }
}

// Memory is wanting where nothing else is a cause.
fn wanting(cause: Refused) -> Memory
    requires unmoved { (edition : ℕ) → cause ≡ refusals.Moved edition → ⊥ }
    requires within { (edition count : ℕ) (which : Which) → cause ≡ refusals.Limit edition which count → ⊥ }
{
    match cause {
        Refused::Memory => Memory,
        Refused::Moved { .. } => unreachable!(),
        Refused::Limit { .. } => unreachable!(),
    }
}
