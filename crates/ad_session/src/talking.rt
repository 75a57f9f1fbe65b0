ghost use Rattle.std.specs.Prelude.{◌≡◌, ◌≤◌};
ghost use Rattle.ad_base.specs.Limits.{AreWithinStandard};
ghost use Rattle.ad_items.specs.Items.{bounds_of};
ghost use Rattle.ad_session.specs.Flows.{flow};
ghost use Rattle.ad_session.specs.Talks.{TalkIs};

use crate::ends::{End, Pause};
use crate::turn::{Turn, take_turn};
use crate::work::{Talk, Work};
use ad_base::Limits;
use ad_edition::Look;
use ad_gate::Gate;
use ad_io::{Sink, Source};
use ad_theory::Tally;
use std::alloc::Global;

/// Reads and answers requests until an edit is read or the session ends. Each query that is answered is on the edition
/// that it looks at. Behind the line of each request it passes the gate. The tally counts what was done for modules.
pub fn talk<S: Source, K: Sink, L: Look, G: Gate>(
    alloc: Global,
    source: &mut S,
    sink: &mut K,
    look: &mut L,
    talk: &mut Talk,
    work: &mut Work,
    limits: Limits,
    gate: &G,
    tally: &mut Tally,
) -> Pause
    requires standard { AreWithinStandard limits }
    requires work { work.old.limits ≡ L.limits look.old }
    ensures talk { TalkIs (bounds_of limits) limits.depth (L.footing look.old) result talk.old.answered talk.new.answered (flow (S.left source.old) (S.faults source.old) (K.written sink.old) (K.faults sink.old)) (flow (S.left source.new) (S.faults source.new) (K.written sink.new) (K.faults sink.new)) (L.sight look.old) (L.sight look.new) }
    ensures chair { talk.new.chair ≡ talk.old.chair }
    ensures footing { L.footing look.new ≡ L.footing look.old }
    ensures limits { L.limits look.new ≡ L.limits look.old }
    ensures work { work.new.limits ≡ work.old.limits }
    ensures reads { S.faults source.old ≤ S.faults source.new }
    ensures writes { K.faults sink.old ≤ K.faults sink.new }
{
    'turns: while talk.answered < limits.requests {
        let point = talk.point();
        match take_turn(alloc, source, sink, look, work, limits, gate, point, tally) {
            Turn::Said => talk.answered += 1,
            Turn::Edit(batch, expected) => return Pause::Edit(batch, expected),
            Turn::Ended(end) => return Pause::Ended(end),
        }
    }
    Pause::Ended(End::Spent)
}
