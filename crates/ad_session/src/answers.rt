ghost use Rattle.std.specs.Prelude.{◌≡◌, IfSome};
ghost use Rattle.ad_io.specs.Sink.{Puts, PutCause};
ghost use Rattle.ad_reply.specs.Replies.{reply_bytes};
ghost use Rattle.ad_session.specs.Turns.{outcome_reply, wrote_of, count_after};

use crate::ends::End;
use crate::work::Talk;
use ad_edition::{Receipt, Refused};
use ad_io::{Sink, Wrote};
use ad_reply::{Refusal, edit_reply, refuse};

/// Writes the reply of an edit, and counts it, as far as it counts, where it was written whole. It takes no memory.
pub fn answer<K: Sink>(
    sink: &mut K,
    talk: &mut Talk,
    outcome: Result<Receipt, Refused>,
) -> Option<End>
    ensures bytes { Puts (K.written sink.old) (K.written sink.new) (wrote_of result) (reply_bytes (outcome_reply outcome)) }
    ensures cause { PutCause (K.faults sink.old) (K.faults sink.new) (wrote_of result) }
    ensures ended { IfSome result (λ end. end ≡ End.WriteFault) }
    ensures counted { talk.new ≡ record talk.old { answered = count_after result talk.old.answered } }
{
    match put_outcome(outcome, sink) {
        Wrote::All => {
            talk.answered = talk.answered.saturating_add(1);
            None
        }
        Wrote::Failed => Some(End::WriteFault),
    }
}

// Writes the reply of an edit.
fn put_outcome<K: Sink>(outcome: Result<Receipt, Refused>, sink: &mut K) -> Wrote
    ensures bytes { Puts (K.written sink.old) (K.written sink.new) result (reply_bytes (outcome_reply outcome)) }
    ensures cause { PutCause (K.faults sink.old) (K.faults sink.new) result }
{
    match outcome {
        Ok(receipt) => edit_reply(receipt, sink),
        Err(
            Refused::Limit {
                edition,
                which,
                count,
            },
        ) => refuse(
            Refusal::Limit {
                edition,
                which,
                count,
            },
            sink,
        ),
        Err(Refused::Moved { edition }) => refuse(Refusal::Moved { edition }, sink),
        Err(Refused::Memory) => refuse(Refusal::Memory, sink),
    }
}
