ghost use Rattle.std.specs.Prelude.{◌≡◌, ◌≤◌, replicate, Some, IfOk};
ghost use Rattle.ad_core.specs.Kept.{edition_in, editions_in, waiting_in};

use ad_base::Memory;
use ad_edition::{Draft, Edition};
use ad_theory::Tally;
use std::alloc::Global;
use std::sync::Arc;
use std::thread::Threads;

// One owner of the edition for each session.
pub(crate) fn owners_of(
    alloc: Global,
    edition: &Arc<Edition>,
    sessions: u32,
) -> Result<Vec<Arc<Edition>>, Memory>
    ensures { IfOk result (λ owners. editions_in owners.items ≡ replicate sessions (edition_in edition.now)) }
{
    let mut owners = Vec::new(alloc);
    for _session in 0..sessions {
        owners.push(Arc::try_clone(edition)?)?;
    }
    Ok(owners)
}

// One more owner of the edition for each session, to be taken when the session enters it.
pub(crate) fn waiting_for(
    alloc: Global,
    edition: &Arc<Edition>,
    sessions: u32,
) -> Result<Vec<Option<Arc<Edition>>>, Memory>
    ensures { IfOk result (λ waiting. waiting_in waiting.items ≡ replicate sessions (Some (edition_in edition.now))) }
{
    let mut waiting = Vec::new(alloc);
    for _session in 0..sessions {
        waiting.push(Some(Arc::try_clone(edition)?))?;
    }
    Ok(waiting)
}

// Finishes the draft, and makes an owner of its edition, with one more for each session.
pub(crate) fn owners_of_next(
    rt: &(impl Threads + Sync),
    alloc: Global,
    draft: Draft,
    sessions: u32,
    tally: &mut Tally,
) -> Result<(Arc<Edition>, Vec<Option<Arc<Edition>>>), Memory>
    ensures edition { IfOk result (λ owners. edition_in owners.0 ≡ draft.next) }
    ensures waiting { IfOk result (λ owners. waiting_in owners.1.items ≡ replicate sessions (Some draft.next)) }
    ensures tests { tally.old.tests ≤ tally.new.tests }
    ensures runs { tally.old.runs ≤ tally.new.runs }
{
    let newest = Arc::new(alloc, draft.fresh(rt, alloc, tally)?)?;
    let waiting = waiting_for(alloc, &newest, sessions)?;
    Ok((newest, waiting))
}
