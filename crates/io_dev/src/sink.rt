ghost use Rattle.io_dev.specs.Sink.{SinkState, IsSinkWritten};

use crate::WriteAnswer;

/// Something that takes bytes, one piece after another.
pub trait Sink {
    /// The bytes that it took, where they are told, and how often a write has failed.
    ghost state: { Self → SinkState };

    /// Appends the bytes whole.
    ///
    /// # Errors
    ///
    /// After either a prefix of the bytes was appended.
    ///
    /// - `Failed` where the device failed; the count of faults is then one higher, or stands at
    ///   2^64 - 1.
    /// - `Memory` where there was no memory; the count stays.
    fn write(&mut self, bytes: &[u8]) -> Result<(), WriteAnswer>
        ensures { IsSinkWritten (state self.old) (state self.new) bytes.now result };
}
