ghost use Rattle.std.specs.Prelude.{◌≡◌, ◌≢◌, ℕ, ◌<◌, ◌↔◌, [], IfOk, Some, Contains, length, take, min};
ghost use Rattle.ad_io.specs.Memory.{after_call, next_of, stored, told, read_has_failed, write_has_failed};
ghost use Rattle.ad_io.specs.Source.{Reads, ReadCause};
ghost use Rattle.ad_io.specs.Sink.{Takes, WriteCause};

use crate::calls::Calls;
use crate::rest::Rest;
use crate::sink::{Put, Sink};
use crate::source::{Got, Source};
use crate::store::Store;
use ad_base::Memory;
use std::alloc::Global;
use std::marker::Model;

/// A source over bytes in memory, for tests: it gives small pieces, and fails at chosen calls.
#[derive(Drop)]
pub struct MemSource {
    rest: Rest,
    piece: usize,
    calls: Calls,
}

impl Model for MemSource {
    ghost use Rattle.ad_io.specs.Memory.{Feed};
    ghost use Rattle.std.specs.Prelude.{◌<◌};

    ghost Value = { Feed };

    ghost view = { λ source. record { left = source.rest; piece = source.piece; calls = source.calls } };

    ghost invariant = { λ source. 0 < source.piece };
}

impl MemSource {
    /// Gives these bytes, at most `piece` a call, and fails at the calls whose numbers, from 0, stand in `fail`.
    pub fn new(bytes: Vec<u8>, piece: usize, fail: Vec<u64>) -> MemSource
        requires { 0 < piece }
        ensures left { result.left ≡ bytes.items }
        ensures piece { result.piece ≡ piece }
        ensures calls { result.calls ≡ record { fail = fail.items; made = 0; faults = 0 } }
    {
        MemSource {
            rest: Rest::new(bytes),
            piece,
            calls: Calls::new(fail),
        }
    }
}

impl Source for MemSource {
    ghost left = { λ source. Some source.left };

    ghost faults = { λ source. source.calls.faults };

    fn read(&mut self, buffer: &mut [u8]) -> Got
        requires { 0 < length buffer.old }
        ensures bytes { Reads (Some self.old.left) (Some self.new.left) result buffer.new }
        ensures cause { ReadCause self.old.calls.faults self.new.calls.faults result }

        // It fails exactly at the calls that were chosen, and its count rises in exactly these.
        ensures fails { (result ≡ Got.Failed) ↔ Contains self.old.calls.fail self.old.calls.made }
        ensures calls { self.new.calls ≡ after_call self.old.calls (read_has_failed result) }

        // Any other call gives all that is left, but no more than a piece and than the buffer holds.
        ensures gives { result ≢ Got.Failed → result ≡ next_of self.old.left (min (length buffer.old) self.old.piece) }
        ensures piece { self.new.piece ≡ self.old.piece }
    {
        if self.calls.next_fails() {
            return Got::Failed;
        }
        let most = buffer.len().min(self.piece);
        self.rest.give(buffer, most)
    }
}

/// A sink into memory, for tests: it takes small pieces, and fails at chosen calls.
#[derive(Drop)]
pub struct MemSink {
    store: Store,
    piece: usize,
    calls: Calls,
}

impl Model for MemSink {
    ghost use Rattle.ad_io.specs.Memory.{Drain};
    ghost use Rattle.std.specs.Prelude.{◌<◌};

    ghost Value = { Drain };

    ghost view = { λ sink. record { store = sink.store; piece = sink.piece; calls = sink.calls } };

    ghost invariant = { λ sink. 0 < sink.piece };
}

impl MemSink {
    /// Keeps the first `room` bytes, takes at most `piece` a call, and fails at the calls whose numbers, from 0, stand in `fail`.
    /// All its memory is taken here.
    pub fn new(alloc: Global, room: usize, piece: usize, fail: Vec<u64>) -> Result<MemSink, Memory>
        requires { 0 < piece }
        ensures store { IfOk result (λ sink. sink.store ≡ record { kept = []; rest = 0; room = room }) }
        ensures piece { IfOk result (λ sink. sink.piece ≡ piece) }
        ensures calls { IfOk result (λ sink. sink.calls ≡ record { fail = fail.items; made = 0; faults = 0 }) }
    {
        Ok(MemSink {
            store: Store::new(alloc, room)?,
            piece,
            calls: Calls::new(fail),
        })
    }

    /// The bytes that were kept.
    pub fn bytes(&self) -> &[u8]
        ensures { result.now ≡ self.now.store.kept }
    {
        self.store.bytes()
    }
}

impl Sink for MemSink {
    ghost written = { λ sink. told sink.store };

    ghost faults = { λ sink. sink.calls.faults };

    fn write(&mut self, piece: &[u8]) -> Put
        requires { 0 < length piece.now }
        ensures bytes { Takes (told self.old.store) (told self.new.store) result piece.now }
        ensures cause { WriteCause self.old.calls.faults self.new.calls.faults result }

        // It fails exactly at the calls that were chosen, and its count rises in exactly these.
        ensures fails { (result ≡ Put.Failed) ↔ Contains self.old.calls.fail self.old.calls.made }
        ensures calls { self.new.calls ≡ after_call self.old.calls (write_has_failed result) }
        ensures failed { result ≡ Put.Failed → self.new.store ≡ self.old.store }

        // Any other call takes the whole piece, but no more than its size allows.
        ensures takes { result ≢ Put.Failed → result ≡ Put.Took (min (length piece.now) self.old.piece) }
        ensures store { (n : ℕ) → result ≡ Put.Took n → self.new.store ≡ stored self.old.store (take n piece.now) }
        ensures piece { self.new.piece ≡ self.old.piece }
    {
        if self.calls.next_fails() {
            return Put::Failed;
        }
        let count = piece.len().min(self.piece);
        self.store.take(&piece[..count]);
        Put::Took(count)
    }
}
