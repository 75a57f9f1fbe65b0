ghost use Rattle.std.specs.Prelude.{◌≡◌, ◌≤◌, ℕ, IfSome, IfNone, decimal};
ghost use Rattle.ad_command.specs.Command.{most_size};

use ad_base::number;

// A generated ontology has a size of at most this.
const MOST_SIZE: u64 = 10_000;

// The size of a generated ontology that a word names.
pub(crate) fn size_of(word: &str) -> Option<u32>
    ensures some { IfSome result (λ size. (size ≤ most_size) × (word.now ≡ decimal size)) }
    ensures none { IfNone result ((size : ℕ) → size ≤ most_size → word.now ≡ decimal size → ⊥) }
{
    match number(word.as_bytes()) {
        Some(size) if size <= MOST_SIZE => Some(size as u32),
        Some(_) => None,
        None => None,
    }
}
