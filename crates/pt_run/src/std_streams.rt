ghost use Rattle.std.specs.Prelude.{◌≡◌};
ghost use Rattle.pt_run.specs.Told.{told_since, IsStillTold};

use crate::streams::{Failed, Sink, Source};
use std::io::{Read, Write};
use std::snapshot::Snapshot;

/// A reader as a source, standard input for one. Its bytes are told where the reader tells them.
#[derive(Drop)]
pub struct StdSource<R: Read + Drop> {
    reader: R,
    // The reader as it was handed in.
    first: Snapshot<R>,
    faults: u64,
    ghost told: { IsStillTold (R.remaining first.value) (R.remaining reader) },
}

impl<R: Read + Drop> StdSource<R> {
    pub fn new(reader: R) -> Self
        ensures left { ⟦<StdSource<R> as Source>⟧.left result ≡ R.remaining reader }
        ensures faults { ⟦<StdSource<R> as Source>⟧.faults result ≡ 0 }
    {
        let first = Snapshot::of(&reader);
        StdSource {
            reader,
            first,
            faults: 0,
        }
    }
}

impl<R: Read + Drop> Source for StdSource<R> {
    ghost left = { λ source. told_since (R.remaining source.first.value) (R.remaining source.reader) };

    ghost faults = { λ source. source.faults };

    fn pull(&mut self, buf: &mut [u8]) -> Result<usize, Failed> {
        match self.reader.read(buf) {
            Ok(count) => Ok(count),
            Err(_) => {
                self.faults = self.faults.saturating_add(1);
                Err(Failed)
            }
        }
    }
}

/// A writer as a sink, standard output for one. What was written is told where the writer tells it.
#[derive(Drop)]
pub struct StdSink<W: Write + Drop> {
    writer: W,
    // The writer as it was handed in.
    first: Snapshot<W>,
    faults: u64,
    ghost told: { IsStillTold (W.contents first.value) (W.contents writer) },
}

impl<W: Write + Drop> StdSink<W> {
    pub fn new(writer: W) -> Self
        ensures written { ⟦<StdSink<W> as Sink>⟧.written result ≡ W.contents writer }
        ensures faults { ⟦<StdSink<W> as Sink>⟧.faults result ≡ 0 }
    {
        let first = Snapshot::of(&writer);
        StdSink {
            writer,
            first,
            faults: 0,
        }
    }
}

impl<W: Write + Drop> Sink for StdSink<W> {
    ghost written = { λ sink. told_since (W.contents sink.first.value) (W.contents sink.writer) };

    ghost faults = { λ sink. sink.faults };

    // A write that takes nothing would be tried for ever, so it is a fault.
    fn push(&mut self, piece: &[u8]) -> Result<usize, Failed> {
        match self.writer.write(piece) {
            Ok(count) if count > 0 || piece.is_empty() => Ok(count),
            _ => {
                self.faults = self.faults.saturating_add(1);
                Err(Failed)
            }
        }
    }
}
