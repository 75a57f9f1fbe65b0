ghost use Rattle.std.specs.Prelude.{◌≡◌, ◌<◌, ◌≤◌, take, drop, vec_len, replicate, IfOk};
ghost use Rattle.ad_io.specs.Source.{Reads, ReadCause};
ghost use Rattle.ad_items.specs.Reading.{Fills, Skips, IsPiece, FillCause, IsPayload, PayloadCause};

use ad_base::Memory;
use ad_io::{Got, Source};
use std::alloc::Global;

// How many bytes are dropped in one read at most.
const PIECE: usize = 4096;

// How reading that many bytes ended.
pub(crate) enum Filled {
    Whole,
    // The input ended before them all.
    Cut,
    Failed,
}

// How reading a payload ended.
#[derive(Drop)]
pub(crate) enum PayloadEnd {
    Full(Vec<u8>),
    // Memory was refused, and all its bytes were dropped.
    Dropped,
    // The input ended inside it.
    Cut,
    Failed,
}

// Reads a payload of this size. An empty one takes no memory.
pub(crate) fn read_payload<S: Source>(alloc: Global, source: &mut S, size: u64) -> PayloadEnd
    ensures bytes { IsPayload (S.left source.old) (S.left source.new) size result }
    ensures cause { PayloadCause (S.faults source.old) (S.faults source.new) result }
{
    if size == 0 {
        return PayloadEnd::Full(Vec::new(alloc));
    }
    match room(alloc, size) {
        Ok(bytes) => read_into(source, bytes),
        Err(Memory) => drop_payload(source, size),
    }
}

// Room for that many bytes.
fn room(alloc: Global, size: u64) -> Result<Vec<u8>, Memory>
    ensures { IfOk result (λ bytes. vec_len bytes ≡ size) }
{
    Ok(vec![in alloc; 0; size as usize]?)
}

// Reads a payload into this room.
fn read_into<S: Source>(source: &mut S, bytes: Vec<u8>) -> PayloadEnd
    ensures bytes { IsPayload (S.left source.old) (S.left source.new) (vec_len bytes) result }
    ensures cause { PayloadCause (S.faults source.old) (S.faults source.new) result }
{
    let mut payload = bytes;
    match fill(source, &mut payload) {
        Filled::Whole => PayloadEnd::Full(payload),
        Filled::Cut => PayloadEnd::Cut,
        Filled::Failed => PayloadEnd::Failed,
    }
}

// Reads a payload of this size, and keeps none of it.
fn drop_payload<S: Source>(source: &mut S, size: u64) -> PayloadEnd
    requires { 0 < size }
    ensures bytes { IsPayload (S.left source.old) (S.left source.new) size result }
    ensures cause { PayloadCause (S.faults source.old) (S.faults source.new) result }
{
    match skip(source, size) {
        Filled::Whole => PayloadEnd::Dropped,
        Filled::Cut => PayloadEnd::Cut,
        Filled::Failed => PayloadEnd::Failed,
    }
}

// Reads bytes until the buffer is full.
fn fill<S: Source>(source: &mut S, buffer: &mut Vec<u8>) -> Filled
    ensures size { vec_len buffer.new ≡ vec_len buffer.old }
    ensures bytes { Fills (S.left source.old) (S.left source.new) buffer.new.items result }
    ensures cause { FillCause (S.faults source.old) (S.faults source.new) result }
{
    let mut filled = 0;
    while filled < buffer.len() {
        match read_behind(source, buffer, filled) {
            Got::Bytes(n) => filled += n,
            Got::End => return Filled::Cut,
            Got::Failed => return Filled::Failed,
        }
    }
    Filled::Whole
}

// Reads behind the first `filled` bytes.
fn read_behind<S: Source>(source: &mut S, bytes: &mut Vec<u8>, filled: usize) -> Got
    requires { filled < vec_len bytes.old }
    ensures kept { take filled bytes.new.items ≡ take filled bytes.old.items }
    ensures size { vec_len bytes.new ≡ vec_len bytes.old }
    ensures bytes { Reads (S.left source.old) (S.left source.new) result (drop filled bytes.new.items) }
    ensures cause { ReadCause (S.faults source.old) (S.faults source.new) result }
{
    source.read(&mut bytes[filled..])
}

// Reads that many bytes, and keeps none.
fn skip<S: Source>(source: &mut S, size: u64) -> Filled
    ensures bytes { Skips (S.left source.old) (S.left source.new) size result }
    ensures cause { FillCause (S.faults source.old) (S.faults source.new) result }
{
    let mut left = size;
    while left > 0 {
        match read_piece(source, left) {
            Got::Bytes(n) => left -= n as u64,
            Got::End => return Filled::Cut,
            Got::Failed => return Filled::Failed,
        }
    }
    Filled::Whole
}

// Reads at most that many bytes, and keeps none.
fn read_piece<S: Source>(source: &mut S, most: u64) -> Got
    requires { 0 < most }
    ensures bytes { IsPiece (S.left source.old) (S.left source.new) most result }
    ensures cause { ReadCause (S.faults source.old) (S.faults source.new) result }
{
    let mut piece = [0; PIECE];
    let size = most.min(PIECE as u64) as usize;
    source.read(&mut piece[..size])
}
