ghost use Rattle.std.specs.Prelude.{ℕ, List, Option, ◌<◌, length};
ghost use Rattle.ad_io.specs.Sink.{Takes, WriteCause};

/// What one call of a sink took.
#[derive(Clone, Copy)]
pub enum Put {
    /// That many bytes from the piece's front, at least one.
    Took(usize),
    /// Nothing: the call failed, and appended nothing.
    Failed,
}

/// What bytes are written to.
pub trait Sink {
    // The bytes that were written, where the sink tells them.
    ghost written: { Self → Option (List ℕ) };

    // How many calls failed. A count that is kept as a `u64` stays at its greatest value.
    ghost faults: { Self → ℕ };

    /// Appends a front of the piece. A call that fails appends nothing.
    fn write(&mut self, piece: &[u8]) -> Put
        requires { 0 < length piece.now }
        ensures bytes { Takes (written self.old) (written self.new) result piece.now }
        ensures cause { WriteCause (faults self.old) (faults self.new) result };
}
