//! Rows that get members.
ghost use Rattle.std.specs.Prelude.{◌≡◌, ◌≢◌, ◌<◌, ◌||◌, ℕ, IsTrue, length};
ghost use Rattle.ad_bits.specs.Rows.{has};
ghost use Rattle.ad_theory.specs.Numbers.{among};

use ad_bits::Row;

// Makes these numbers members.
pub(crate) fn set_each(row: &mut Row, numbers: &[u32])
    requires { (i : ℕ) → IsTrue (among numbers.now i) → i < length row.old }
    ensures members { (i : ℕ) → has row.new i ≡ (has row.old i || among numbers.now i) }
    ensures size { length row.new ≡ length row.old }
{
    for number in numbers {
        row.set(*number);
    }
}

// Makes the number a member, where it is wanted.
pub(crate) fn set_where(row: &mut Row, number: u32, wanted: bool)
    requires { number < length row.old }
    ensures here { has row.new number ≡ (wanted || has row.old number) }
    ensures others { (k : ℕ) → k ≢ number → has row.new k ≡ has row.old k }
    ensures size { length row.new ≡ length row.old }
{
    if wanted {
        row.set(number);
    }
}
