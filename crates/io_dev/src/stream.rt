ghost use Rattle.std.specs.Prelude.{◌≡◌, OnOk, OnErr};
ghost use Rattle.std.specs.IoError.{error_kind};
ghost use Rattle.std.specs.Io.KnownBytes.{Appends};
ghost use Rattle.io_dev.specs.Stream.{AppendsPrefix};
ghost use Rattle.io_dev.specs.steps.Stopping.{is_out_of_memory};

use std::io;
use std::io::{ErrorKind, Write};

/// Whether the error tells want of memory.
pub fn is_memory(error: &io::Error) -> bool
    ensures { result ≡ is_out_of_memory (error_kind error.now) }
{
    matches!(error.kind(), ErrorKind::OutOfMemory)
}

/// Writes all the bytes, in as many calls as it takes. After an error a prefix of them was written.
/// A stream that takes nothing gives `WriteZero`.
pub fn write_whole<W: Write>(stream: &mut W, bytes: &[u8]) -> io::Result<()>
    ensures ok { OnOk result
        (Appends (W.contents stream.old) (W.contents stream.new) bytes.now) }
    ensures err { OnErr result
        (AppendsPrefix (W.contents stream.old) (W.contents stream.new) bytes.now) }
{
    let mut rest = bytes;
    while !rest.is_empty() {
        let count = stream.write(rest)?;
        if count == 0 {
            return Err(io::Error::from(ErrorKind::WriteZero));
        }
        rest = &rest[count..];
    }
    Ok(())
}
