ghost use Rattle.std.specs.Prelude.{◌≡◌, ◌++◌, ◌≤◌, flat_map, OnOk, OnErr, Ok, Err};
ghost use Rattle.ad_io.specs.Flow.{Gains, GainsFront, Rose};
ghost use Rattle.ad_io.specs.Sink.{Puts, PutCause, wrote_of};

use crate::sink::{Put, Sink};

/// How a call that writes a whole piece ended.
#[derive(Clone, Copy, Debug, PartialEq, Eq)]
pub enum Wrote {
    /// All of it was written.
    All,
    /// The sink failed behind a front of it.
    Failed,
}

/// The sink failed. With it writers of several pieces stop by `?`.
#[derive(Clone, Copy)]
pub struct Failed;

impl From<Result<(), Failed>> for Wrote {
    ghost from_gives = { λ outcome wrote. wrote ≡ wrote_of outcome };

    fn from(outcome: Result<(), Failed>) -> Wrote {
        match outcome {
            Ok(()) => Wrote::All,
            Err(Failed) => Wrote::Failed,
        }
    }
}

/// Writes the whole piece, or a front of it where the sink fails.
pub fn put_all<K: Sink>(sink: &mut K, piece: &[u8]) -> Wrote
    ensures bytes { Puts (K.written sink.old) (K.written sink.new) result piece.now }
    ensures cause { PutCause (K.faults sink.old) (K.faults sink.new) result }
{
    let mut written = 0;
    while written < piece.len() {
        match sink.write(&piece[written..]) {
            Put::Took(n) => written += n,
            Put::Failed => return Wrote::Failed,
        }
    }
    Wrote::All
}

/// Writes the whole piece, for writers of several pieces, which stop at the first failure by `?`.
pub fn append<K: Sink>(sink: &mut K, piece: &[u8]) -> Result<(), Failed>
    ensures ok { OnOk result (Gains (K.written sink.old) (K.written sink.new) piece.now) }
    ensures err { OnErr result (GainsFront (K.written sink.old) (K.written sink.new) piece.now) }
    ensures failed { OnErr result (Rose (K.faults sink.old) (K.faults sink.new)) }
    ensures later { K.faults sink.old ≤ K.faults sink.new }
{
    match put_all(sink, piece) {
        Wrote::All => Ok(()),
        Wrote::Failed => Err(Failed),
    }
}

/// Writes the pieces one after the other, or a front of them all where the sink fails.
pub fn put_each<K: Sink>(sink: &mut K, pieces: &[&[u8]]) -> Wrote
    ensures bytes { Puts (K.written sink.old) (K.written sink.new) result (flat_map (λ piece. piece.now) pieces.now) }
    ensures cause { PutCause (K.faults sink.old) (K.faults sink.new) result }
{
    for piece in pieces {
        match put_all(sink, piece) {
            Wrote::All => {}
            Wrote::Failed => return Wrote::Failed,
        }
    }
    Wrote::All
}
