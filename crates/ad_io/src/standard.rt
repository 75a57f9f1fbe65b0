ghost use Rattle.std.specs.Prelude.{◌≡◌, ◌≢◌, ◌<◌, None, length};
ghost use Rattle.ad_io.specs.Source.{Reads, ReadCause};
ghost use Rattle.ad_io.specs.Sink.{Takes, WriteCause};

use crate::sink::{Put, Sink};
use crate::source::{Got, Source};
use std::io::{Read, Write};

/// A reader of std as a source. It tells nothing of what is left.
#[derive(Drop)]
pub struct StdSource<R> {
    reader: R,
    faults: u64,
}

impl<R: Read> StdSource<R> {
    /// Reads from this reader.
    pub fn new(reader: R) -> StdSource<R>
        ensures { ⟦<StdSource<R> as Source>⟧.faults result ≡ 0 }
    {
        StdSource { reader, faults: 0 }
    }
}

impl<R: Read> Source for StdSource<R> {
    ghost left = { λ _. None };

    ghost faults = { λ source. source.faults };

    fn read(&mut self, buffer: &mut [u8]) -> Got
        requires { 0 < length buffer.old }
        ensures bytes { Reads None None result buffer.new }
        ensures cause { ReadCause self.old.faults self.new.faults result }
        ensures only { result ≢ Got.Failed → self.new.faults ≡ self.old.faults }
    {
        match self.reader.read(buffer) {
            Ok(0) => Got::End,
            Ok(count) => Got::Bytes(count),
            Err(_) => {
                self.faults = self.faults.saturating_add(1);
                Got::Failed
            }
        }
    }
}

/// A writer of std as a sink. It tells nothing of what was written.
#[derive(Drop)]
pub struct StdSink<W> {
    writer: W,
    faults: u64,
}

impl<W: Write> StdSink<W> {
    /// Writes to this writer.
    pub fn new(writer: W) -> StdSink<W>
        ensures { ⟦<StdSink<W> as Sink>⟧.faults result ≡ 0 }
    {
        StdSink { writer, faults: 0 }
    }
}

impl<W: Write> Sink for StdSink<W> {
    ghost written = { λ _. None };

    ghost faults = { λ sink. sink.faults };

    fn write(&mut self, piece: &[u8]) -> Put
        requires { 0 < length piece.now }
        ensures bytes { Takes None None result piece.now }
        ensures cause { WriteCause self.old.faults self.new.faults result }
        ensures only { result ≢ Put.Failed → self.new.faults ≡ self.old.faults }
    {
        match self.writer.write(piece) {
            Ok(count) if count > 0 => Put::Took(count),
            _ => {
                self.faults = self.faults.saturating_add(1);
                Put::Failed
            }
        }
    }
}
