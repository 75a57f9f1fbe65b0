ghost use Rattle.std.specs.Prelude.{◌≡◌};

use ad_base::Memory;
use thiserror::Error;

/// Why an ontology isn't numbered.
#[derive(Clone, Copy, Debug, PartialEq, Eq, Error)]
pub enum NumberRefused {
    /// It has more entities than the limit: so many.
    #[error("{count} entities are more than there may be")]
    Entities { count: u64 },
    /// Want of memory.
    #[error("out of memory")]
    Memory,
}

impl From<Memory> for NumberRefused {
    ghost use Rattle.ad_numbered.specs.declared.refused.NumberRefused.{NumberRefused};
    ghost use Rattle.ad_numbered.specs.declared.refused.NumberRefused.TheVariants as refusals;

    ghost from_gives = { λ memory refused. refused ≡ refusals.Memory };

    fn from(_memory: Memory) -> NumberRefused {
        NumberRefused::Memory
    }
}
