ghost use Rattle.std.specs.Prelude.{ℕ, List, ◌++◌, []};

/// What a text is written with, piece by piece.
pub trait Pen {
    // what becomes of the pen, as it writes a text
    ghost writes: { Self → Self → List ℕ → Type 0 };

    /// Writes the piece.
    fn put(&mut self, piece: &[u8])
        ensures { writes self.old self.new piece.now };

    // A pen that writes nothing stays as it is.
    ghost begins: { (pen : Self) → writes pen pen [] };

    // Two texts one after the other are their joined text.
    ghost joins: { (old mid new : Self) (xs ys : List ℕ) → writes old mid xs → writes mid new ys → writes old new (xs ++ ys) };
}
