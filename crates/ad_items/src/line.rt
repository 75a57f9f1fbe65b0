ghost use Rattle.std.specs.Prelude.{◌≡◌, ◌<◌, ◌∷◌, ◌++◌, [], length, IfOk};
ghost use Rattle.ad_items.specs.Reading.{IsByte, ByteCause, IsLine, LineCause};

use ad_base::Memory;
use ad_io::{Got, Source};
use std::alloc::Global;
use std::marker::Model;

// How many bytes of a line are read at most: one more than a line may have.
const MOST: usize = 257;

/// The line that was read last. All its memory is taken at once.
#[derive(Drop)]
pub struct Line {
    bytes: Vec<u8>,
}

impl Model for Line {
    ghost use Rattle.std.specs.Prelude.{List, ℕ, ◌≤◌, vec_capacity};

    ghost Value = { List ℕ };

    ghost view = { λ line. line.bytes.items };

    ghost invariant = { λ line. 257 ≤ vec_capacity line.bytes };
}

impl Line {
    /// No line yet.
    pub fn new(alloc: Global) -> Result<Line, Memory>
        ensures { IfOk result (λ line. line ≡ []) }
    {
        Ok(Line {
            bytes: Vec::with_capacity(alloc, MOST)?,
        })
    }

    /// The bytes of the line, without the line feed.
    pub fn bytes(&self) -> &[u8]
        ensures { result.now ≡ self.now }
    {
        self.bytes.as_slice()
    }

    fn clear(&mut self)
        ensures { self.new ≡ [] }
    {
        self.bytes.clear();
    }

    fn push(&mut self, byte: u8)
        requires { length self.old < 257 }
        ensures { self.new ≡ self.old ++ byte ∷ [] }
    {
        self.bytes.push(byte).unwrap();
    }
}

// What reading one byte gave.
pub(crate) enum Byte {
    Is(u8),
    End,
    Failed,
}

// How reading a line ended.
pub(crate) enum LineEnd {
    // At its line feed.
    Whole,
    // The input ended before the line's first byte.
    Closed,
    // The input ended inside the line.
    Cut,
    // One byte more than a line may have was read.
    TooLong,
    Failed,
}

// Reads a line, and its line feed.
pub(crate) fn read_line<S: Source>(source: &mut S, line: &mut Line) -> LineEnd
    ensures bytes { IsLine (S.left source.old) (S.left source.new) line.new result }
    ensures cause { LineCause (S.faults source.old) (S.faults source.new) result }
{
    line.clear();
    'bytes: for _ in 0..MOST {
        match read_byte(source) {
            Byte::Is(b'\n') => return LineEnd::Whole,
            Byte::Is(byte) => line.push(byte),
            Byte::End if line.bytes().is_empty() => return LineEnd::Closed,
            Byte::End => return LineEnd::Cut,
            Byte::Failed => return LineEnd::Failed,
        }
    }
    LineEnd::TooLong
}

// Reads one byte.
fn read_byte<S: Source>(source: &mut S) -> Byte
    ensures byte { IsByte (S.left source.old) (S.left source.new) result }
    ensures cause { ByteCause (S.faults source.old) (S.faults source.new) result }
{
    let mut buffer = [0; 1];
    match source.read(&mut buffer) {
        Got::Bytes(_) => Byte::Is(buffer[0]),
        Got::End => Byte::End,
        Got::Failed => Byte::Failed,
    }
}
