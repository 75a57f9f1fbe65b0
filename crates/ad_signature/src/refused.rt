use thiserror::Error;

/// Why an entity was not entered.
#[derive(Clone, Copy, Debug, PartialEq, Eq, Error)]
pub enum SymbolRefused {
    /// There are as many entities as there may be.
    #[error("{count} entities are all that there may be")]
    Full { count: u32 },
    /// Want of memory.
    #[error("out of memory")]
    Memory,
}
