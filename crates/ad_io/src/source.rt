ghost use Rattle.std.specs.Prelude.{ℕ, List, Option, ◌<◌, length};
ghost use Rattle.ad_io.specs.Source.{Reads, ReadCause};

/// What one call of a source gave.
#[derive(Clone, Copy)]
pub enum Got {
    /// That many bytes, at least one.
    Bytes(usize),
    /// Nothing, since nothing is left.
    End,
    /// Nothing: the call failed, and took nothing.
    Failed,
}

/// What bytes are read from.
pub trait Source {
    // The bytes that are left to be read, where the source tells them.
    ghost left: { Self → Option (List ℕ) };

    // How many calls failed. A count that is kept as a `u64` stays at its greatest value.
    ghost faults: { Self → ℕ };

    /// Reads the next bytes to the front of the buffer. A call that fails takes none.
    fn read(&mut self, buffer: &mut [u8]) -> Got
        requires { 0 < length buffer.old }
        ensures bytes { Reads (left self.old) (left self.new) result buffer.new }
        ensures cause { ReadCause (faults self.old) (faults self.new) result };
}
