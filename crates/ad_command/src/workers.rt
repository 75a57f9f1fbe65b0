ghost use Rattle.std.specs.Prelude.{◌≡◌, ◌≤◌, ℕ, IfSome, IfNone, decimal};
ghost use Rattle.ad_command.specs.Words.{NameWorkers, NameNoWorkers};

use ad_base::{Word, number};

// How many workers the words name: one where there are no words.
pub(crate) fn workers_of(words: &[Word]) -> Option<u32>
    ensures some { IfSome result (NameWorkers words.now) }
    ensures none { IfNone result (NameNoWorkers words.now) }
{
    match words {
        [] => Some(1),
        [option, number] if option.as_str() == "--workers" => number_of(number.as_str()),
        _ => None,
    }
}

// The number of workers that a word names.
fn number_of(word: &str) -> Option<u32>
    ensures some { IfSome result (λ workers. (1 ≤ workers) × (workers ≤ 16) × (word.now ≡ decimal workers)) }
    ensures none { IfNone result ((workers : ℕ) → 1 ≤ workers → workers ≤ 16 → word.now ≡ decimal workers → ⊥) }
{
    match number(word.as_bytes()) {
        Some(workers) if workers >= 1 && workers <= 16 => Some(workers as u32),
        Some(_) => None,
        None => None,
    }
}
