ghost use Rattle.std.specs.Prelude.{IfOk};
ghost use Rattle.ad_groups.specs.Keys.{IsKeyOf};

use ad_base::Memory;
use std::alloc::Global;

// The members of a list, each once and in order: lists with the same members have the same key.
pub(crate) fn key_of(alloc: Global, symbols: &[u32]) -> Result<Vec<u32>, Memory>
    ensures { IfOk result (λ key. IsKeyOf symbols.now key.items) }
{
    let mut key = symbols.to_vec(alloc)?;
    key.sort_unstable();
    key.dedup();
    Ok(key)
}
