ghost use Rattle.std.specs.Prelude.{◌≡◌, ◌+◌, ◌≤◌, ◌↔◌, ◌++◌, [], length, IsTrue};

use std::marker::Model;

// How many bytes there is room for.
const ROOM: usize = 4096;

// Bytes that are gathered before a sink's call. Contracts see them as a list.
#[derive(Drop)]
pub(crate) struct Page {
    bytes: [u8; ROOM],
    filled: usize,
}

impl Model for Page {
    ghost use Rattle.std.specs.Prelude.{List, ℕ, take, ◌≤◌};

    ghost Value = { List ℕ };

    ghost view = { λ page. take page.filled page.bytes };

    ghost invariant = { λ page. page.filled ≤ 4096 };
}

impl Page {
    // A page without bytes.
    pub(crate) fn new() -> Page
        ensures { result ≡ [] }
    {
        Page {
            bytes: [0; ROOM],
            filled: 0,
        }
    }

    // Whether there is room for so many more.
    pub(crate) fn has_room(&self, count: usize) -> bool
        ensures { IsTrue result ↔ (length self.now + count ≤ 4096) }
    {
        count <= ROOM - self.filled
    }

    // Puts the piece behind the others.
    pub(crate) fn add(&mut self, piece: &[u8])
        requires { length self.old + length piece.now ≤ 4096 }
        ensures { self.new ≡ self.old ++ piece.now }
    {
        let end = self.filled + piece.len();
        self.bytes[self.filled..end].copy_from_slice(piece);
        self.filled = end;
    }

    // Takes all away.
    pub(crate) fn clear(&mut self)
        ensures { self.new ≡ [] }
    {
        self.filled = 0;
    }

    pub(crate) fn as_bytes(&self) -> &[u8]
        ensures { result.now ≡ self.now }
    {
        &self.bytes[..self.filled]
    }
}
