ghost use Rattle.std.specs.Prelude.{◌≡◌, ℕ, ◌<◌, ◌≤◌, List, length, take, Option, IfOk, OnOk, OnErr};
ghost use Rattle.outside_io.specs.Counts.{CountIncreased};
ghost use Rattle.outside_io.specs.Growth.{GrewBy, GrewByPrefix, Untouched};

use crate::entries::{Failed, WriteFault};

/// Takes bytes, piece by piece.
pub trait Sink {
    // All bytes written; a sink of the outside tells none.
    ghost written: { Self → Option (List ℕ) };

    ghost faults: { Self → ℕ };

    /// Writes a front of the piece, and gives its length.
    fn write_some(&mut self, piece: &[u8]) -> Result<usize, Failed>
        ensures bound { IfOk result (λ n. n ≤ length piece.now) }
        ensures some { IfOk result (λ n. 0 < length piece.now → 0 < n) }
        ensures grew { IfOk result
            (λ n. GrewBy (written self.old) (written self.new) (take n piece.now)) }
        ensures untouched { OnErr result (Untouched (written self.old) (written self.new)) }
        ensures fault { OnErr result (CountIncreased (faults self.old) (faults self.new)) }
        ensures faultless { OnOk result (faults self.new ≡ faults self.old) }
        ensures faults_kept { faults self.old ≤ faults self.new };
}

/// Writes all bytes. It takes no memory, and succeeds over a sink whose faults do not rise.
pub fn write_all<S: Sink>(sink: &mut S, bytes: &[u8]) -> Result<(), WriteFault>
    ensures grew { OnOk result (GrewBy (S.written sink.old) (S.written sink.new) bytes.now) }
    ensures grew_by_prefix { OnErr result
        (GrewByPrefix (S.written sink.old) (S.written sink.new) bytes.now) }
    ensures fault { OnErr result (CountIncreased (S.faults sink.old) (S.faults sink.new)) }
    ensures faultless { OnOk result (S.faults sink.new ≡ S.faults sink.old) }
    ensures faults_kept { S.faults sink.old ≤ S.faults sink.new }
{
    let mut at = 0;
    while at < bytes.len() {
        match sink.write_some(&bytes[at..]) {
            Ok(n) => at += n,
            Err(Failed) => return Err(WriteFault),
        }
    }
    Ok(())
}
