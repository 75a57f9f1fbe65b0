ghost use Rattle.std.specs.Prelude.{◌≡◌, [], IfOk};
ghost use Rattle.ad_io.specs.Memory.{stored, told};
ghost use Rattle.ad_io.specs.Flow.{Gains};

use ad_base::Memory;
use std::alloc::Global;
use std::marker::Model;

// The first `room` bytes of all that were taken, and a count of the others.
#[derive(Drop)]
pub(crate) struct Store {
    kept: Vec<u8>,
    rest: u64,
    room: usize,
}

impl Model for Store {
    ghost use Rattle.ad_io.specs.Memory as seen;
    ghost use Rattle.std.specs.Prelude.{◌≤◌, vec_len, vec_capacity};

    ghost Value = { seen.Store };

    ghost view = { λ store. record { kept = store.kept.items; rest = store.rest; room = store.room } };

    ghost invariant = { λ store. (vec_len store.kept ≤ store.room) × (store.room ≤ vec_capacity store.kept) };
}

impl Store {
    // All the memory is taken here.
    pub(crate) fn new(alloc: Global, room: usize) -> Result<Store, Memory>
        ensures { IfOk result (λ store. store ≡ record { kept = []; rest = 0; room = room }) }
    {
        Ok(Store {
            kept: Vec::with_capacity(alloc, room)?,
            rest: 0,
            room,
        })
    }

    pub(crate) fn take(&mut self, bytes: &[u8])
        ensures stored { self.new ≡ stored self.old bytes.now }
        ensures gained { Gains (told self.old) (told self.new) bytes.now }
    {
        let fits = bytes.len().min(self.room - self.kept.len());
        self.kept.extend_from_slice(&bytes[..fits]).unwrap();
        self.rest = self.rest.saturating_add((bytes.len() - fits) as u64);
    }

    pub(crate) fn bytes(&self) -> &[u8]
        ensures { result.now ≡ self.now.kept }
    {
        self.kept.as_slice()
    }

    pub(crate) fn rest(&self) -> u64
        ensures { result ≡ self.now.rest }
    {
        self.rest
    }
}
