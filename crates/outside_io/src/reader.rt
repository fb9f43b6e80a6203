ghost use Rattle.std.specs.Prelude.{◌≡◌, ◌<◌, length, Some, None, IsSome, IfSome, OnOk, OnErr};
ghost use Rattle.outside_io.specs.Told.{told_bytes};
ghost use Rattle.outside_io.specs.Readers.{BlockGiven, FailsToOpen, IsAfter, ReaderState};

use crate::entries::{Failed, Got};
use chunk_data::Bytes;

/// Reads one file at a time, block by block.
pub trait FileReader: Drop + Send {
    ghost reader: { Self → ReaderState };

    /// Opens a file at its first byte, and gives up the one that stood open. A missing file fails.
    fn open_path(&mut self, path: &Bytes) -> Result<(), Failed>
        ensures after { IsAfter (reader self.old) (reader self.new) }
        ensures opened { OnOk result
            (reader self.new ≡ record (reader self.old) { position = Some (path.now, 0) }) }
        ensures found { OnOk result
            (IfSome (reader self.old).files (λ all. IsSome (told_bytes all path.now))) }
        ensures closed { OnErr result (FailsToOpen (reader self.old) (reader self.new)) };

    /// Reads the next bytes into the front of the buffer; the rest of the buffer may change too.
    fn read_some(&mut self, buf: &mut [u8]) -> Result<Got, Failed>
        requires position { IsSome (reader self.old).position }
        requires room { 0 < length buf.old }
        ensures after { IsAfter (reader self.old) (reader self.new) }
        ensures gives { BlockGiven (reader self.old) (reader self.new) buf.new result }
        ensures stays_open { IsSome (reader self.new).position };

    /// Gives the file up that stands open, if one does.
    fn shut(&mut self)
        ensures { reader self.new ≡ record (reader self.old) { position = None } };
}
