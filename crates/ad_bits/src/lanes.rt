//! Words of bits, four at a time.
//!
//! Each function on a whole slice says what becomes of each bit, or what its answer says of the
//! bits: the lanes are nowhere to be seen.
ghost use Rattle.std.specs.Prelude.{◌≡◌, [], bit_xor, ℕ, ◌+◌, ◌*◌, ◌/◌, ◌%◌, ◌^◌, ◌<◌, ◌≤◌, ◌↔◌, not, ◌&&◌, ◌||◌, false, length, slice_index, bit_and, bit_or, IsTrue, IsFalse, IfSome, IfNone};
ghost use Rattle.std.specs.Bool.{OnTrue, OnFalse};
ghost use Rattle.std.specs.Int.{bit_not, w64};
ghost use Rattle.ad_bits.specs.Words.{bit_in, first_bits, AreLanes, SameBits, AreWithin, HasBeyond, Share, ChangesLanes, SomeLane, NoLane};

use std::simd::prelude::*;

const LANES: usize = 4;

/// Unsets each bit.
pub fn clear_words(words: &mut [u64])
    requires { AreLanes words.old }
    ensures { (i : ℕ) → IsFalse (bit_in words.new i) }
{
    'lanes: for lane in 0..words.len() / LANES {
        clear_at(words, LANES * lane);
    }
}

/// Takes over each bit of the other.
pub fn copy_words(words: &mut [u64], other: &[u64])
    requires lanes { AreLanes words.old }
    requires same_length { length words.old ≡ length other.now }
    ensures { words.new ≡ other.now }
{
    'lanes: for lane in 0..words.len() / LANES {
        copy_at(words, other, LANES * lane);
    }
}

/// Sets each bit that is set in the other.
pub fn join_words(words: &mut [u64], other: &[u64])
    requires lanes { AreLanes words.old }
    requires same_length { length words.old ≡ length other.now }
    ensures { (i : ℕ) → bit_in words.new i ≡ (bit_in words.old i || bit_in other.now i) }
{
    'lanes: for lane in 0..words.len() / LANES {
        join_at(words, other, LANES * lane);
    }
}

/// Unsets each bit that is set in the other.
pub fn remove_words(words: &mut [u64], other: &[u64])
    requires lanes { AreLanes words.old }
    requires same_length { length words.old ≡ length other.now }
    ensures { (i : ℕ) → bit_in words.new i ≡ (bit_in words.old i && not (bit_in other.now i)) }
{
    'lanes: for lane in 0..words.len() / LANES {
        remove_at(words, other, LANES * lane);
    }
}

/// Whether each bit is the same in both.
pub fn same_words(words: &[u64], other: &[u64]) -> bool
    requires lanes { AreLanes words.now }
    requires same_length { length words.now ≡ length other.now }
    ensures { IsTrue result ↔ SameBits words.now other.now }
{
    'lanes: for lane in 0..words.len() / LANES {
        if differ_at(words, other, LANES * lane) {
            return false;
        }
    }
    true
}

/// Whether each bit is set in the other too.
pub fn are_within(words: &[u64], other: &[u64]) -> bool
    requires lanes { AreLanes words.now }
    requires same_length { length words.now ≡ length other.now }
    ensures within { IsTrue result ↔ AreWithin words.now other.now }
    ensures beyond { OnFalse result (HasBeyond words.now other.now) }
{
    'lanes: for lane in 0..words.len() / LANES {
        if exceed_at(words, other, LANES * lane) {
            return false;
        }
    }
    true
}

/// Whether some bit is set in both.
pub fn share_bit(words: &[u64], other: &[u64]) -> bool
    requires lanes { AreLanes words.now }
    requires same_length { length words.now ≡ length other.now }
    ensures { IsTrue result ↔ Share words.now other.now }
{
    'lanes: for lane in 0..words.len() / LANES {
        if meet_at(words, other, LANES * lane) {
            return true;
        }
    }
    false
}

#[inline(always)]
fn clear_at(words: &mut [u64], at: usize)
    requires { at + LANES ≤ length words.old }
    ensures { ChangesLanes (λ _ _. 0) words.old words.new [] at }
{
    u64x4::splat(0).copy_to_slice(&mut words[at..]);
}

#[inline(always)]
fn copy_at(words: &mut [u64], other: &[u64], at: usize)
    requires here { at + LANES ≤ length words.old }
    requires there { at + LANES ≤ length other.now }
    ensures { ChangesLanes (λ _ there. there) words.old words.new other.now at }
{
    u64x4::from_slice(&other[at..]).copy_to_slice(&mut words[at..]);
}

#[inline(always)]
fn join_at(words: &mut [u64], other: &[u64], at: usize)
    requires here { at + LANES ≤ length words.old }
    requires there { at + LANES ≤ length other.now }
    ensures { ChangesLanes bit_or words.old words.new other.now at }
{
    let joined = u64x4::from_slice(&words[at..]) | u64x4::from_slice(&other[at..]);
    joined.copy_to_slice(&mut words[at..]);
}

#[inline(always)]
fn remove_at(words: &mut [u64], other: &[u64], at: usize)
    requires here { at + LANES ≤ length words.old }
    requires there { at + LANES ≤ length other.now }
    ensures { ChangesLanes (λ here there. bit_and here (bit_not w64 there)) words.old words.new other.now at }
{
    let left = u64x4::from_slice(&words[at..]) & !u64x4::from_slice(&other[at..]);
    left.copy_to_slice(&mut words[at..]);
}

#[inline(always)]
fn differ_at(words: &[u64], other: &[u64], at: usize) -> bool
    requires here { at + LANES ≤ length words.now }
    requires there { at + LANES ≤ length other.now }
    ensures some { OnTrue result (SomeLane bit_xor words.now other.now at) }
    ensures none { OnFalse result (NoLane bit_xor words.now other.now at) }
{
    let changed = u64x4::from_slice(&words[at..]) ^ u64x4::from_slice(&other[at..]);
    changed.reduce_or() != 0
}

#[inline(always)]
fn exceed_at(words: &[u64], other: &[u64], at: usize) -> bool
    requires here { at + LANES ≤ length words.now }
    requires there { at + LANES ≤ length other.now }
    ensures some { OnTrue result (SomeLane (λ here there. bit_and here (bit_not w64 there)) words.now other.now at) }
    ensures none { OnFalse result (NoLane (λ here there. bit_and here (bit_not w64 there)) words.now other.now at) }
{
    let more = u64x4::from_slice(&words[at..]) & !u64x4::from_slice(&other[at..]);
    more.reduce_or() != 0
}

#[inline(always)]
fn meet_at(words: &[u64], other: &[u64], at: usize) -> bool
    requires here { at + LANES ≤ length words.now }
    requires there { at + LANES ≤ length other.now }
    ensures some { OnTrue result (SomeLane bit_and words.now other.now at) }
    ensures none { OnFalse result (NoLane bit_and words.now other.now at) }
{
    let both = u64x4::from_slice(&words[at..]) & u64x4::from_slice(&other[at..]);
    both.reduce_or() != 0
}
