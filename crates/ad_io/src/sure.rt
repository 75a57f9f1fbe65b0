ghost use Rattle.std.specs.Prelude.{◌≡◌, ◌≢◌, ◌<◌, [], IfOk, Some, length};
ghost use Rattle.ad_io.specs.Memory.{next_of, stored, told};
ghost use Rattle.ad_io.specs.Source.{Reads, ReadCause};
ghost use Rattle.ad_io.specs.Sink.{Takes, WriteCause};
ghost use Rattle.ad_io.specs.Flow.{NotRisen};

use crate::rest::Rest;
use crate::sink::{Put, Sink};
use crate::source::{Got, Source};
use crate::store::Store;
use ad_base::Memory;
use std::alloc::Global;
use std::marker::Model;

/// A source over bytes in memory that never fails. It is seen as the bytes that are left.
#[derive(Drop)]
pub struct SureSource {
    rest: Rest,
}

impl Model for SureSource {
    ghost use Rattle.std.specs.Prelude.{List, ℕ};

    ghost Value = { List ℕ };

    ghost view = { λ source. source.rest };
}

impl SureSource {
    /// Gives these bytes.
    pub fn new(bytes: Vec<u8>) -> SureSource
        ensures { result ≡ bytes.items }
    {
        SureSource {
            rest: Rest::new(bytes),
        }
    }
}

impl Source for SureSource {
    ghost left = { λ source. Some source };

    ghost faults = { λ _. 0 };

    fn read(&mut self, buffer: &mut [u8]) -> Got
        requires { 0 < length buffer.old }
        ensures bytes { Reads (Some self.old) (Some self.new) result buffer.new }
        ensures cause { ReadCause 0 0 result }
        ensures sure { result ≢ Got.Failed }

        // It gives all that is left, but no more than the buffer holds.
        ensures gives { result ≡ next_of self.old (length buffer.old) }
    {
        let most = buffer.len();
        self.rest.give(buffer, most)
    }
}

/// A sink into memory that never fails. It is seen as its store.
#[derive(Drop)]
pub struct SureSink {
    store: Store,
}

impl Model for SureSink {
    ghost use Rattle.ad_io.specs.Memory as seen;

    ghost Value = { seen.Store };

    ghost view = { λ sink. sink.store };
}

impl SureSink {
    /// Keeps the first `room` bytes and counts the others. All its memory is taken here.
    pub fn new(alloc: Global, room: usize) -> Result<SureSink, Memory>
        ensures { IfOk result (λ sink. sink ≡ record { kept = []; rest = 0; room = room }) }
    {
        Ok(SureSink {
            store: Store::new(alloc, room)?,
        })
    }

    /// The bytes that were kept.
    pub fn bytes(&self) -> &[u8]
        ensures { result.now ≡ self.now.kept }
    {
        self.store.bytes()
    }

    /// How many more bytes were taken, or the greatest number where they were more than that.
    pub fn rest(&self) -> u64
        ensures { result ≡ self.now.rest }
    {
        self.store.rest()
    }
}

impl Sink for SureSink {
    ghost written = { λ sink. told sink };

    ghost faults = { λ _. 0 };

    fn write(&mut self, piece: &[u8]) -> Put
        requires { 0 < length piece.now }
        ensures bytes { Takes (told self.old) (told self.new) result piece.now }
        ensures cause { WriteCause 0 0 result }
        ensures sure { result ≢ Put.Failed }

        // It takes the whole piece.
        ensures takes { result ≡ Put.Took (length piece.now) }
        ensures store { self.new ≡ stored self.old piece.now }
    {
        self.store.take(piece);
        Put::Took(piece.len())
    }
}

/// The counts of faults of a `SureSource` and a `SureSink` are the constant 0, so they rise in no call.
pub fn sure_counts_never_rise()
    ensures source { (before now : SureSource) → NotRisen (⟦<SureSource as Source>⟧.faults before) (⟦<SureSource as Source>⟧.faults now) }
    ensures sink { (before now : SureSink) → NotRisen (⟦<SureSink as Sink>⟧.faults before) (⟦<SureSink as Sink>⟧.faults now) }
{}
