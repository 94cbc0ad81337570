ghost use Rattle.std.specs.Prelude.{◌≡◌, OnOk, OnErr};
ghost use Rattle.std.specs.Io.KnownBytes as known;
ghost use Rattle.io_dev.specs.Stream.{AppendsPrefix};
ghost use Rattle.io_dev.specs.Sink.{IsSinkWritten};
ghost use Rattle.io_dev.specs.StdSink.{stream_of, untold};

use crate::stream::{is_memory, write_whole};
use crate::{Sink, WriteAnswer};
use std::io;
use std::io::Write;

/// A real stream, as standard output. It does not tell what it took.
///
/// Each write is flushed before it is answered.
#[derive(Debug, Drop)]
pub struct StdSink<W: Write + Drop> {
    stream: W,
    faults: u64,
}

impl<W: Write + Drop> StdSink<W> {
    /// A sink over the stream, with no faults yet.
    pub fn new(stream: W) -> StdSink<W>
        ensures { ⟦<StdSink<W> as Sink>⟧.state result ≡ untold 0 }
    {
        StdSink { stream, faults: 0 }
    }
}

/// Writes all the bytes and flushes, also after an error, which leaves a prefix of them written.
fn write_and_flush<W: Write>(stream: &mut W, bytes: &[u8]) -> io::Result<()>
    ensures ok { OnOk result
        (known.Appends (W.contents stream.old) (W.contents stream.new) bytes.now) }
    ensures err { OnErr result
        (AppendsPrefix (W.contents stream.old) (W.contents stream.new) bytes.now) }
{
    let written = write_whole(stream, bytes);
    let flushed = stream.flush();
    written?;
    flushed
}

impl<W: Write + Drop> Sink for StdSink<W> {
    ghost state = { λ s. untold s.faults };

    /// As the trait says. Where the stream tells its bytes, they grow by exactly these, and after an
    /// error by a prefix of them.
    fn write(&mut self, bytes: &[u8]) -> Result<(), WriteAnswer>
        ensures written { IsSinkWritten
            (⟦<StdSink<W> as Sink>⟧.state self.old)
            (⟦<StdSink<W> as Sink>⟧.state self.new) bytes.now result }

        // What the stream tells.
        ensures whole { OnOk result (known.Appends
            (W.contents (stream_of self.old)) (W.contents (stream_of self.new)) bytes.now) }
        ensures prefix { OnErr result (AppendsPrefix
            (W.contents (stream_of self.old)) (W.contents (stream_of self.new)) bytes.now) }
    {
        match write_and_flush(&mut self.stream, bytes) {
            Ok(()) => Ok(()),
            Err(error) if is_memory(&error) => Err(WriteAnswer::Memory),
            Err(_) => {
                self.faults = self.faults.saturating_add(1);
                Err(WriteAnswer::Failed)
            }
        }
    }
}
