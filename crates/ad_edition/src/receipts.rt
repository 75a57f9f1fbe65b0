ghost use Rattle.std.specs.Prelude.{◌≡◌};

use ad_base::{Memory, Which};

/// What an accepted edit did: the number of the edition that it made, and how many of its operations
/// added an axiom, found it there already, took it out, or found it absent.
#[derive(Clone, Copy, Debug, PartialEq, Eq, Hash)]
pub struct Receipt {
    pub number: u32,
    pub added: u32,
    pub already: u32,
    pub removed: u32,
    pub absent: u32,
}

/// Why an edit was refused on the edition of this number: another was expected; or its ontology passes a limit, the first
/// of them, with the count that passes it; or for want of memory.
#[derive(Clone, Copy, Debug, PartialEq, Eq, Hash)]
pub enum Refused {
    Moved {
        edition: u32,
    },
    Limit {
        edition: u32,
        which: Which,
        count: u64,
    },
    Memory,
}

impl From<Memory> for Refused {
    ghost use Rattle.ad_edition.specs.declared.receipts.Refused.{Refused};
    ghost use Rattle.ad_edition.specs.declared.receipts.Refused.TheVariants as refusals;

    ghost from_gives = { λ memory refused. refused ≡ refusals.Memory };

    fn from(_memory: Memory) -> Refused {
        Refused::Memory
    }
}
