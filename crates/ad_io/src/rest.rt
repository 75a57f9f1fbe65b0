ghost use Rattle.std.specs.Prelude.{◌≡◌, ◌<◌, ◌≤◌, length, Some};
ghost use Rattle.ad_io.specs.Memory.{next_of};
ghost use Rattle.ad_io.specs.Source.{Reads};

use crate::source::Got;
use std::marker::Model;

// Bytes in memory of which a part was given. It is seen as the bytes that are left.
#[derive(Drop)]
pub(crate) struct Rest {
    bytes: Vec<u8>,
    given: usize,
}

impl Model for Rest {
    ghost use Rattle.std.specs.Prelude.{List, ℕ, drop, ◌≤◌, vec_len};

    ghost Value = { List ℕ };

    ghost view = { λ rest. drop rest.given rest.bytes.items };

    ghost invariant = { λ rest. rest.given ≤ vec_len rest.bytes };
}

impl Rest {
    pub(crate) fn new(bytes: Vec<u8>) -> Rest
        ensures { result ≡ bytes.items }
    {
        Rest { bytes, given: 0 }
    }

    // Gives the next bytes, at most `most`.
    pub(crate) fn give(&mut self, buffer: &mut [u8], most: usize) -> Got
        requires some { 0 < most }
        requires fits { most ≤ length buffer.old }
        ensures gives { result ≡ next_of self.old most }
        ensures bytes { Reads (Some self.old) (Some self.new) result buffer.new }
    {
        let left = self.bytes.len() - self.given;
        if left == 0 {
            return Got::End;
        }
        let count = left.min(most);
        buffer[..count].copy_from_slice(&self.bytes[self.given..self.given + count]);
        self.given += count;
        Got::Bytes(count)
    }
}
