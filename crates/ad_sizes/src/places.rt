ghost use Rattle.std.specs.Prelude.{◌≡◌, ◌≤◌, ◌<◌, ◌+◌, ◌*◌, ◌^◌, ◌%◌, ◌≢◌, ℕ, length, slice_index, IsFalse, IfOk};
ghost use Rattle.ad_bits.specs.Rows.{has};
ghost use Rattle.ad_sizes.specs.Places.{lowest};

use ad_base::Memory;
use ad_bits::Row;
use ad_theory::empty_row;
use std::alloc::Global;

// A number that none of these exceeds: the largest, or 0.
pub(crate) fn largest_of(numbers: &[u32]) -> u32
    ensures { (k : ℕ) → k < length numbers.now → slice_index numbers.now k ≤ result }
{
    let mut largest = 0;
    for number in numbers {
        largest = largest.max(*number);
    }
    largest
}

// Makes the slot a member, where the number lacks the lowest place.
fn note(lacking: &mut Row, slot: u32, number: u32)
    requires slot { slot < length lacking.old }
    requires empty { IsFalse (has lacking.old slot) }
    ensures size { length lacking.new ≡ length lacking.old }
    ensures here { lowest lacking.new slot ≡ number % 2 }
    ensures others { (k : ℕ) → k ≢ slot → has lacking.new k ≡ has lacking.old k }
{
    if number % 2 == 0 {
        lacking.set(slot);
    }
}

// Takes the lowest place off each slot's number: what is left is half of it. The row has the slots whose numbers lacked
// the place.
pub(crate) fn take_lowest(alloc: Global, numbers: &mut Vec<u32>) -> Result<Row, Memory>
    requires { length numbers.old.items < 2 ^ 32 }
    ensures size { length numbers.new.items ≡ length numbers.old.items }
    ensures row { IfOk result (λ lacking. length lacking ≡ length numbers.old.items) }
    ensures taken { IfOk result (λ lacking. (k : ℕ) → k < length numbers.old.items →
        slice_index numbers.old.items k ≡ lowest lacking k + 2 * slice_index numbers.new.items k) }
{
    let mut lacking = empty_row(alloc, numbers.len() as u32)?;
    for slot in 0..numbers.len() {
        note(&mut lacking, slot as u32, numbers[slot]);
        numbers[slot] /= 2;
    }
    Ok(lacking)
}
