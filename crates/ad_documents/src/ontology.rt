ghost use Rattle.std.specs.Prelude.{◌≡◌, ℕ, ◌<◌, ◌^◌, [], Option, None, length, IfOk, IsErrOf, IsOk};
ghost use Rattle.ad_base.specs.Limits.{standard};
ghost use Rattle.ad_apply.specs.Apply.{applied};
ghost use Rattle.ad_edition.specs.Limit.{IsRefusedBy, Passed, passed};
ghost use Rattle.ad_edition.specs.declared.receipts.Refused.TheVariants as refusals;
ghost use Rattle.ad_documents.specs.Causes.{IsPassedBy, IsUnfitFor};
ghost use Rattle.ad_documents.specs.Output.{IsOntology};

use ad_base::{Limits, Memory};
use ad_edition::{Draft, Edition, Refused};
use ad_read::{ReadRefused, read_document};
use ad_reply::Refusal;
use ad_theory::Tally;
use ad_tree::Batch;
use std::alloc::Global;
use std::hash::RandomState;
use std::thread::Threads;

// Why a text gave no ontology.
#[derive(Clone, Copy)]
pub(crate) enum Unread {
    // It is no document of an ontology within the limits, for this cause.
    Refused(Refusal),
    Memory,
}

// The edition that the document alone makes, to be finished.
pub(crate) fn draft_of(alloc: Global, keys: RandomState, text: &[u8]) -> Result<Draft, Unread>
    requires { length text.now < 2 ^ 32 }
    ensures read { IfOk result (λ draft. IsOntology text.now draft.next.shown.axioms) }
    ensures limits { IfOk result (λ draft. draft.next.limits ≡ standard) }
    ensures refused { (refusal : Refusal) → IsErrOf result (Unread.Refused refusal) → IsUnfitFor text.now refusal }
{
    match read_document(alloc, text, &Limits::standard()) {
        Ok(batch) => begin_first(alloc, keys, &batch),
        Err(ReadRefused::Memory) => Err(Unread::Memory),
        Err(cause) => Err(Unread::Refused(Refusal::Text(cause))),
    }
}

// The edition that the additions of a document make, to be finished.
fn begin_first(alloc: Global, keys: RandomState, batch: &Batch) -> Result<Draft, Unread>
    ensures axioms { IfOk result (λ draft. draft.next.shown.axioms ≡ applied [] batch.now) }
    ensures limits { IfOk result (λ draft. draft.next.limits ≡ standard) }
    ensures within { IsOk result → passed standard 0 (applied [] batch.now) ≡ None }
    ensures refused { (refusal : Refusal) → IsErrOf result (Unread.Refused refusal) → IsPassedBy (passed standard 0 (applied [] batch.now)) refusal }
{
    let first = match Edition::empty(alloc, keys, Limits::standard()) {
        Ok(first) => first,
        Err(Memory) => return Err(Unread::Memory),
    };
    match first.begin(alloc, batch, None) {
        Ok(draft) => Ok(draft),
        Err(cause) => Err(unread_by(cause)),
    }
}

// Why a document's ontology was not taken, where no edition was expected.
fn unread_by(cause: Refused) -> Unread
    requires unmoved { (edition : ℕ) → cause ≡ refusals.Moved edition → ⊥ }
    ensures { (first : Option Passed) (refusal : Refusal) → IsRefusedBy first 0 cause → result ≡ Unread.Refused refusal → IsPassedBy first refusal }
{
    match cause {
        Refused::Moved { .. } => unreachable!(),
        Refused::Limit {
            edition,
            which,
            count,
        } => Unread::Refused(Refusal::Limit {
            edition,
            which,
            count,
        }),
        Refused::Memory => Unread::Memory,
    }
}

// The edition that the document alone makes. Threads share the work.
pub(crate) fn edition_of(
    rt: &(impl Threads + Sync),
    alloc: Global,
    keys: RandomState,
    text: &[u8],
) -> Result<Edition, Unread>
    requires { length text.now < 2 ^ 32 }
    ensures read { IfOk result (λ edition. IsOntology text.now edition.shown.axioms) }
    ensures refused { (refusal : Refusal) → IsErrOf result (Unread.Refused refusal) → IsUnfitFor text.now refusal }
{
    let draft = draft_of(alloc, keys, text)?;
    match draft.fresh(rt, alloc, &mut Tally::new()) {
        Ok(edition) => Ok(edition),
        Err(Memory) => Err(Unread::Memory),
    }
}
