ghost use Rattle.std.specs.Prelude.{◌≡◌, ℕ, List, ◌+◌, ◌<◌, ◌≤◌, length, take, drop, vec_len, IfOk, OnOk, IsOk, IsErrOf, Some, IsSome};
ghost use Rattle.ad_io.specs.Flow.{Loses, LosesExactly, LosesAtMost, IsAtEnd, Rose};
ghost use Rattle.ad_io.specs.Source.{Reads, ReadCause};
ghost use Rattle.ad_io.specs.Reading.{IsReading, ReadingCause};

use crate::source::{Got, Source};
use std::alloc::{AllocError, Global};

/// Why a source was not read to its end.
#[derive(Clone, Copy)]
pub enum ReadEnd {
    /// The source failed.
    Failed,
    /// More bytes were given than the limit.
    Long,
    /// Want of memory.
    Memory,
}

impl From<AllocError> for ReadEnd {
    ghost use Rattle.ad_io.specs.declared.reads.ReadEnd.TheVariants.{Memory};

    ghost from_gives = { λ _ end. end ≡ Memory };

    fn from(_error: AllocError) -> ReadEnd {
        ReadEnd::Memory
    }
}

// The first read has room for that many bytes, and each later one for as many as were read so far.
const FIRST_PIECE: usize = 65_536;

// How many bytes there is to be room for, once `filled` bytes fill what there is: at most `most`.
fn next_size(filled: usize, most: usize) -> usize
    requires { filled < most }
    ensures more { filled < result }
    ensures within { result ≤ most }
{
    filled.saturating_mul(2).max(FIRST_PIECE).min(most)
}

// Room for more than the first `filled` bytes, but for at most `most`.
fn make_room(bytes: &mut Vec<u8>, filled: usize, most: usize) -> Result<(), AllocError>
    requires filled { filled ≤ vec_len bytes.old }
    requires more { filled < most }
    requires size { vec_len bytes.old ≤ most }
    ensures kept { take filled bytes.new.items ≡ take filled bytes.old.items }
    ensures within { vec_len bytes.new ≤ most }
    ensures room { OnOk result (filled < vec_len bytes.new) }
{
    if filled == bytes.len() {
        bytes.resize(next_size(filled, most), 0)?;
    }
    Ok(())
}

// Reads behind the first `filled` bytes.
fn read_behind<S: Source>(source: &mut S, bytes: &mut Vec<u8>, filled: usize) -> Got
    requires { filled < vec_len bytes.old }
    ensures kept { take filled bytes.new.items ≡ take filled bytes.old.items }
    ensures size { vec_len bytes.new ≡ vec_len bytes.old }
    ensures bytes { Reads (S.left source.old) (S.left source.new) result (drop filled bytes.new.items) }
    ensures cause { ReadCause (S.faults source.old) (S.faults source.new) result }
{
    source.read(&mut bytes[filled..])
}

// Reads all that is left into a list that is empty, but no more than one byte above the limit.
fn read_into<S: Source>(source: &mut S, bytes: &mut Vec<u8>, limit: usize) -> Result<(), ReadEnd>
    requires empty { vec_len bytes.old ≡ 0 }
    requires limit { limit < 4294967295 }
    ensures bytes { IsReading (S.left source.old) (S.left source.new) limit bytes.new.items result }
    ensures cause { ReadingCause (S.faults source.old) (S.faults source.new) result }
{
    let most = limit + 1;
    let mut filled = 0;
    while filled < most {
        make_room(bytes, filled, most)?;
        match read_behind(source, bytes, filled) {
            Got::Bytes(n) => filled += n,
            Got::End => {
                bytes.truncate(filled);
                return Ok(());
            }
            Got::Failed => return Err(ReadEnd::Failed),
        }
    }
    Err(ReadEnd::Long)
}

/// All the bytes that are left, of which there may be at most `limit`. It never takes more than `limit + 1`.
pub fn read_to_end<S: Source>(alloc: Global, source: &mut S, limit: u64) -> Result<Vec<u8>, ReadEnd>
    requires { limit < 4294967295 }

    // All that was left, read to its end.
    ensures all { IfOk result (λ bytes. Loses (S.left source.old) (S.left source.new) bytes.items) }
    ensures end { OnOk result (IsAtEnd (S.left source.new)) }
    ensures within { IfOk result (λ bytes. length bytes.items ≤ limit) }

    // Where more than the limit was given: one byte more was then taken. No other answer takes so many.
    ensures long { IsErrOf result ReadEnd.Long → LosesExactly (S.left source.old) (S.left source.new) (limit + 1) }
    ensures failed { IsErrOf result ReadEnd.Failed → LosesAtMost (S.left source.old) (S.left source.new) limit }
    ensures memory { IsErrOf result ReadEnd.Memory → LosesAtMost (S.left source.old) (S.left source.new) limit }

    // It fails only where the count of faults rose.
    ensures cause { IsErrOf result ReadEnd.Failed → Rose (S.faults source.old) (S.faults source.new) }
    ensures later { S.faults source.old ≤ S.faults source.new }

    // Where the source tells its text, a text within the limit is never too long, and a longer one is never read whole.
    ensures too_long { (text : List ℕ) → S.left source.old ≡ Some text → IsSome (S.left source.new) → IsErrOf result ReadEnd.Long → limit < length text }
    ensures not_too_long { (text : List ℕ) → S.left source.old ≡ Some text → IsSome (S.left source.new) → IsOk result → length text ≤ limit }
{
    let mut bytes = Vec::new(alloc);
    match read_into(source, &mut bytes, limit as usize) {
        Ok(()) => Ok(bytes),
        Err(end) => Err(end),
    }
}
