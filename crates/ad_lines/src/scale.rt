ghost use Rattle.std.specs.Prelude.{◌≡◌, ◌-◌, ◌^◌, ℕ, List, length, min};
ghost use Rattle.ad_lines.specs.Pen.{Weighs};
ghost use Rattle.ad_lines.specs.PenLaws.{weighs_begins, weighs_joins};

use crate::pen::Pen;

/// A pen that only counts the bytes that it is given, and stays at the greatest number.
#[derive(Drop)]
pub struct Scale {
    bytes: u64,
}

impl Pen for Scale {
    ghost writes = { λ old new text. Weighs old.bytes new.bytes text };

    ghost begins = { λ pen. weighs_begins pen.bytes };

    ghost joins = { λ old mid new xs ys first then_. weighs_joins old.bytes mid.bytes new.bytes xs ys first then_ };

    fn put(&mut self, piece: &[u8]) {
        self.bytes = self.bytes.saturating_add(piece.len() as u64);
    }
}

impl Scale {
    /// A pen that was given nothing.
    pub fn new() -> Scale
        ensures { result.bytes ≡ 0 }
    {
        Scale { bytes: 0 }
    }

    /// How many bytes it was given, or the greatest number where they are more.
    pub fn bytes(&self) -> u64
        ensures { (text : List ℕ) → Weighs 0 self.now.bytes text → result ≡ min (length text) (2 ^ 64 - 1) }
    {
        self.bytes
    }
}
