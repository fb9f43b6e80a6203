ghost use Rattle.std.specs.Prelude.{◌≡◌, ◌<◌, ◌≤◌, length, IfSome, None};

use crate::entries::Failed;
use crate::sink::Sink;
use std::io::Write;

/// A writer of std as a sink. It tells nothing of what was written. Each piece is flushed in the
/// call that writes it; an error of either, and a writer that takes nothing, are faults.
#[derive(Drop)]
pub struct RealSink<W> {
    writer: W,
    faults: u64,
}

impl<W: Write + Drop> RealSink<W> {
    /// A sink over the writer.
    pub fn new(writer: W) -> RealSink<W>
        ensures told { ⟦<RealSink<W> as Sink>⟧.written result ≡ None }
        ensures faults { ⟦<RealSink<W> as Sink>⟧.faults result ≡ 0 }
    {
        RealSink { writer, faults: 0 }
    }
}

/// Writes a front of the piece and flushes it; `None` where either fails or nothing is taken.
fn write_flushed<W: Write>(writer: &mut W, piece: &[u8]) -> Option<usize>
    ensures bound { IfSome result (λ n. n ≤ length piece.now) }
    ensures some { IfSome result (λ n. 0 < n) }
{
    match writer.write(piece) {
        Ok(0) => None,
        Ok(n) => match writer.flush() {
            Ok(()) => Some(n),
            Err(_) => None,
        },
        Err(_) => None,
    }
}

impl<W: Write + Drop> Sink for RealSink<W> {
    ghost use Rattle.std.specs.Prelude.{None};

    ghost written = { λ _. None };

    ghost faults = { λ s. s.faults };

    fn write_some(&mut self, piece: &[u8]) -> Result<usize, Failed> {
        if piece.is_empty() {
            return Ok(0);
        }
        match write_flushed(&mut self.writer, piece) {
            Some(n) => Ok(n),
            None => {
                self.faults = self.faults.saturating_add(1);
                Err(Failed)
            }
        }
    }
}
