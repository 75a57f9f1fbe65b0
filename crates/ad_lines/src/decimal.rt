ghost use Rattle.std.specs.Prelude.{◌≡◌, ◌≤◌, decimal, length};

use ad_base::digits;
use std::marker::Model;

/// A number in decimal, which contracts see as its digits.
#[derive(Drop)]
pub struct Decimal {
    digits: [u8; 20],
    count: u8,
}

impl Model for Decimal {
    ghost use Rattle.std.specs.Prelude.{List, ℕ, take, ◌≤◌};

    ghost Value = { List ℕ };

    ghost view = { λ d. take d.count d.digits };

    ghost invariant = { λ d. d.count ≤ 20 };
}

impl Decimal {
    /// The number, without leading zeros.
    pub fn of(n: u64) -> Decimal
        ensures { result ≡ decimal n }
    {
        let mut text = [0; 20];
        let count = digits(n, &mut text);
        Decimal {
            digits: text,
            count,
        }
    }

    /// The digits, as they are written.
    pub fn as_bytes(&self) -> &[u8]
        ensures { result.now ≡ self.now }
    {
        &self.digits[..self.count as usize]
    }

    /// How many digits there are.
    pub fn len(&self) -> u64
        ensures count { result ≡ length self.now }
        ensures within { result ≤ 20 }
    {
        u64::from(self.count)
    }
}
