ghost use Rattle.std.specs.Prelude.{◌≡◌, ℕ, ◌≤◌, ◌↔◌, ◌<◌, length, take, decimal, IfSome, IfNone, IsTrue, EachIndex, slice_index};
ghost use Rattle.std.specs.Char.{IsAsciiDigit};
ghost use Rattle.ad_base.specs.Decimal.{IsNumber, IsPlainDecimal};

use itoa::Buffer;

// How many digits a number in a request has at most.
const MOST_DIGITS: usize = 10;

/// Writes a number in decimal from the front, and answers how many digits it has.
pub fn digits(n: u64, out: &mut [u8; 20]) -> u8
    ensures written { take result out.new ≡ decimal n }
    ensures count { result ≡ length (decimal n) }
    ensures within { result ≤ 20 }
{
    let mut buffer = Buffer::new();
    let text = buffer.format(n).as_bytes();
    let count = text.len();
    out[..count].copy_from_slice(text);
    count as u8
}

/// The number that a text is the decimal of: one to ten digits without a leading zero, or `0`.
pub fn number(text: &[u8]) -> Option<u64>
    ensures found { IfSome result (IsNumber text.now) }
    ensures none { IfNone result ((n : ℕ) → IsNumber text.now n → ⊥) }
{
    if text.len() > MOST_DIGITS || !is_plain_decimal(text) {
        return None;
    }
    match str::from_utf8(text) {
        Ok(digits) => digits.parse::<u64>().ok(),
        Err(_) => None,
    }
}

// Whether a text has only digits, at least one, and no zero before another digit.
fn is_plain_decimal(text: &[u8]) -> bool
    ensures { IsTrue result ↔ IsPlainDecimal text.now }
{
    match text.first() {
        None => false,
        Some(first) => (*first != b'0' || text.len() == 1) && are_digits(text),
    }
}

/// Whether all bytes are ASCII digits.
pub fn are_digits(text: &[u8]) -> bool
    ensures { IsTrue result ↔ EachIndex text.now (λ i. IsAsciiDigit (slice_index text.now i)) }
{
    text.iter().all(|byte| byte.is_ascii_digit())
}
