ghost use Rattle.std.specs.Prelude.{◌≡◌, ◌≤◌, List, ℕ, length, IsTrue, IfOk};
ghost use Rattle.std.specs.List.{All, AllZip, flat_map};
ghost use Rattle.ad_base.specs.Limits.{AreWithinStandard};
ghost use Rattle.ad_theory.specs.Numbers.{AreSizesOf};
ghost use Rattle.ad_genuine.specs.Found.{AreFound};

use crate::found::{Found, find, joined};
use ad_base::{Limits, Memory};
use ad_theory::Universe;
use rayon::prelude::*;
use std::alloc::Global;
use std::thread::Threads;

// In how many parts the slots are split at most. Parts take different times, so there are more than threads.
const PARTS: usize = 32;

// Finds the genuine modules of these slots in parts, which threads share.
fn find_parts<U: Universe + Sync>(
    rt: &(impl Threads + Sync),
    alloc: Global,
    universe: &U,
    limits: &Limits,
    slots: &[u32],
) -> Result<Vec<Found>, Memory>
    requires limits { AreWithinStandard limits.now }
    requires sizes { AreSizesOf limits.now (U.slot_count universe.now) (U.symbol_count universe.now) }
    requires live { All (λ slot. IsTrue (U.is_live universe.now slot)) slots.now }
    requires few { length slots.now ≤ 65536 }
    ensures { IfOk result (λ parts. (chunks : List (List ℕ)) × (flat_map (λ chunk. chunk) chunks ≡ slots.now)
        × AllZip (AreFound (U.symbols_of universe.now) (U.is_local universe.now) (U.is_live universe.now) (U.slot_count universe.now)) chunks parts.items) }
{
    let size = slots.len().div_ceil(PARTS).max(1);
    slots
        .par_chunks(size)
        .with_min_len(1)
        .map(
            move |chunk: &[u32]| -> Result<Found, Memory>
                requires { AreWithinStandard limits.now × AreSizesOf limits.now (U.slot_count universe.now) (U.symbol_count universe.now)
                    × All (λ slot. IsTrue (U.is_live universe.now slot)) chunk.now × (length chunk.now ≤ 65536) }
                ensures { IfOk result (AreFound (U.symbols_of universe.entry.now) (U.is_local universe.entry.now) (U.is_live universe.entry.now)
                    (U.slot_count universe.entry.now) chunk.now) }
            { find::<U>(alloc, universe, limits, chunk) },
        )
        .collect::<Result<Vec<Found>, Memory>>(rt, alloc)?
}

// Finds the genuine modules of these slots, in threads.
pub(crate) fn find_shared<U: Universe + Sync>(
    rt: &(impl Threads + Sync),
    alloc: Global,
    universe: &U,
    limits: &Limits,
    slots: &[u32],
) -> Result<Found, Memory>
    requires limits { AreWithinStandard limits.now }
    requires sizes { AreSizesOf limits.now (U.slot_count universe.now) (U.symbol_count universe.now) }
    requires live { All (λ slot. IsTrue (U.is_live universe.now slot)) slots.now }
    requires few { length slots.now ≤ 65536 }
    ensures { IfOk result (AreFound (U.symbols_of universe.now) (U.is_local universe.now) (U.is_live universe.now) (U.slot_count universe.now) slots.now) }
{
    let parts = find_parts::<U>(rt, alloc, universe, limits, slots)?;
    joined(alloc, parts)
}
