ghost use Rattle.std.specs.Prelude.{◌≡◌, ◌≢◌, ℕ, ◌<◌, ◌≤◌, ◌↔◌, not, ◌&&◌, ◌||◌, true, false, length, replicate, set, IsTrue, IsFalse, IfOk, IfSome, IfNone, IsNone};
ghost use Rattle.std.specs.Bool.{OnFalse};
ghost use Rattle.ad_bits.specs.Rows.{has, union, minus, member_count, IsSubset, HasOutside, Meets, IsLeastFrom, HasNoneFrom};

use crate::memory::Memory;
use crate::{lanes, words};
use std::alloc::Global;
use std::marker::Model;

/// A set of numbers below its size. Contracts see it as a list with one `Bool` for each number.
#[derive(Debug, Drop)]
pub struct Row {
    size: u32,
    words: Vec<u64>,
}

impl Model for Row {
    ghost use Rattle.std.specs.Prelude.{List, Bool};
    ghost use Rattle.ad_bits.specs.Words.{first_bits, AreWordsOf};

    ghost Value = { List Bool };

    ghost view = { λ row. first_bits row.size row.words.items };

    ghost invariant = { λ row. AreWordsOf row.size row.words.items };
}

impl Row {
    /// The empty row of this size.
    pub fn new(alloc: Global, size: u32) -> Result<Row, Memory>
        ensures row { IfOk result (λ row. row ≡ replicate size false) }
        ensures size { IfOk result (λ row. length row ≡ size) }
        ensures empty { IfOk result (λ row. (i : ℕ) → IsFalse (has row i)) }
    {
        let vectors = (size as usize).div_ceil(256);
        Ok(Row {
            size,
            words: vec![in alloc; 0u64; 4 * vectors]?,
        })
    }

    /// A row with the size and the members of the other one.
    pub fn copied(alloc: Global, other: &Row) -> Result<Row, Memory>
        ensures { IfOk result (λ row. row ≡ other.now) }
    {
        Ok(Row {
            size: other.size,
            words: other.words.to_vec(alloc)?,
        })
    }

    /// The numbers below it may be members.
    pub fn size(&self) -> u32
        ensures { result ≡ length self.now }
    {
        self.size
    }

    /// Whether the number is a member.
    pub fn has(&self, i: u32) -> bool
        requires { i < length self.now }
        ensures { result ≡ has self.now i }
    {
        words::test_bit(&self.words, i as usize)
    }

    /// Makes the number a member.
    pub fn set(&mut self, i: u32)
        requires { i < length self.old }
        ensures row { self.new ≡ set self.old i true }
        ensures size { length self.new ≡ length self.old }
        ensures member { IsTrue (has self.new i) }
        ensures others { (k : ℕ) → k ≢ i → has self.new k ≡ has self.old k }
    {
        words::set_bit(&mut self.words, i as usize);
    }

    /// Makes the number no member.
    pub fn unset(&mut self, i: u32)
        requires { i < length self.old }
        ensures row { self.new ≡ set self.old i false }
        ensures size { length self.new ≡ length self.old }
        ensures no_member { IsFalse (has self.new i) }
        ensures others { (k : ℕ) → k ≢ i → has self.new k ≡ has self.old k }
    {
        words::unset_bit(&mut self.words, i as usize);
    }

    /// Leaves no member.
    pub fn clear(&mut self)
        ensures row { self.new ≡ replicate (length self.old) false }
        ensures size { length self.new ≡ length self.old }
        ensures empty { (i : ℕ) → IsFalse (has self.new i) }
    {
        lanes::clear_words(&mut self.words);
    }

    /// How many members there are.
    pub fn count(&self) -> u32
        ensures { result ≡ member_count self.now }
    {
        words::count_bits(&self.words) as u32
    }

    /// Takes over the members of the other row.
    pub fn copy_from(&mut self, other: &Row)
        requires { length self.old ≡ length other.now }
        ensures { self.new ≡ other.now }
    {
        lanes::copy_words(&mut self.words, &other.words);
    }

    /// Adds the members of the other row.
    pub fn union_with(&mut self, other: &Row)
        requires { length self.old ≡ length other.now }
        ensures row { self.new ≡ union self.old other.now }
        ensures size { length self.new ≡ length self.old }
        ensures members { (i : ℕ) → has self.new i ≡ (has self.old i || has other.now i) }
    {
        lanes::join_words(&mut self.words, &other.words);
    }

    /// Takes the members of the other row away.
    pub fn minus_with(&mut self, other: &Row)
        requires { length self.old ≡ length other.now }
        ensures row { self.new ≡ minus self.old other.now }
        ensures size { length self.new ≡ length self.old }
        ensures members { (i : ℕ) → has self.new i ≡ (has self.old i && not (has other.now i)) }
    {
        lanes::remove_words(&mut self.words, &other.words);
    }

    /// Whether both rows have the same members.
    pub fn same(&self, other: &Row) -> bool
        requires { length self.now ≡ length other.now }
        ensures { IsTrue result ↔ (self.now ≡ other.now) }
    {
        lanes::same_words(&self.words, &other.words)
    }

    /// Whether each member is a member of the other row.
    pub fn is_subset(&self, other: &Row) -> bool
        requires { length self.now ≡ length other.now }
        ensures subset { IsTrue result ↔ IsSubset self.now other.now }
        ensures outside { OnFalse result (HasOutside self.now other.now) }
    {
        lanes::are_within(&self.words, &other.words)
    }

    /// Whether the rows have a member in common.
    pub fn meets(&self, other: &Row) -> bool
        requires { length self.now ≡ length other.now }
        ensures { IsTrue result ↔ Meets self.now other.now }
    {
        lanes::share_bit(&self.words, &other.words)
    }

    /// The least member at or above `from`.
    pub fn next(&self, from: u32) -> Option<u32>
        requires { from ≤ length self.now }
        ensures some { IfSome result (IsLeastFrom self.now from) }
        ensures none { IfNone result (HasNoneFrom self.now from) }
    {
        words::next_bit(&self.words, from)
    }
}
