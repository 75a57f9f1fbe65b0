//! Single bits of words, the next bit and the number of bits.
ghost use Rattle.std.specs.Prelude.{◌≡◌, ◌≢◌, ℕ, ◌+◌, ◌*◌, ◌/◌, ◌%◌, ◌^◌, ◌<◌, ◌≤◌, length, IsTrue, IsFalse, IfSome, IfNone};
ghost use Rattle.ad_bits.specs.Words.{bit_in, first_bits, IsLowestFrom};
ghost use Rattle.ad_bits.specs.Rows.{member_count};

const BITS: usize = u64::BITS as usize;

/// Whether the bit is set.
pub fn test_bit(words: &[u64], i: usize) -> bool
    requires { i < 64 * length words.now }
    ensures { result ≡ bit_in words.now i }
{
    (words[i / BITS] >> (i % BITS)) & 1 == 1
}

/// Sets the bit.
pub fn set_bit(words: &mut [u64], i: usize)
    requires { i < 64 * length words.old }
    ensures set { IsTrue (bit_in words.new i) }
    ensures others { (k : ℕ) → k ≢ i → bit_in words.new k ≡ bit_in words.old k }
{
    words[i / BITS] |= 1 << (i % BITS);
}

/// Unsets the bit.
pub fn unset_bit(words: &mut [u64], i: usize)
    requires { i < 64 * length words.old }
    ensures unset { IsFalse (bit_in words.new i) }
    ensures others { (k : ℕ) → k ≢ i → bit_in words.new k ≡ bit_in words.old k }
{
    words[i / BITS] &= !(1 << (i % BITS));
}

/// How many bits are set.
pub fn count_bits(words: &[u64]) -> u64
    requires { length words.now < 2 ^ 32 }
    ensures { result ≡ member_count (first_bits (64 * length words.now) words.now) }
{
    let mut count = 0;
    for word in words {
        count += u64::from(word.count_ones());
    }
    count
}

/// The lowest bit that is set at or above `from`.
pub fn next_bit(words: &[u64], from: u32) -> Option<u32>
    requires { 64 * length words.now ≤ 2 ^ 32 }
    ensures some { IfSome result (IsLowestFrom words.now from) }
    ensures none { IfNone result ((k : ℕ) → from ≤ k → IsFalse (bit_in words.now k)) }
{
    let first = from as usize / BITS;
    if first >= words.len() {
        return None;
    }
    let rest = words[first] >> (from % u64::BITS);
    if rest != 0 {
        return Some(from + rest.trailing_zeros());
    }
    'words: for at in first + 1..words.len() {
        let word = words[at];
        if word != 0 {
            return Some((BITS * at) as u32 + word.trailing_zeros());
        }
    }
    None
}
