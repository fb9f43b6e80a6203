ghost use Rattle.std.specs.Prelude.{◌≡◌, ◌<◌, ◌≤◌, ◌-◌, min, [], ◌++◌, length, take, Some, IfOk, OnErr};
ghost use Rattle.outside_io.specs.Counts.{one_more};
ghost use Rattle.outside_io.specs.MemStates.{write_answer};

use crate::entries::Failed;
use crate::sink::Sink;
use chunk_data::Memory;
use std::alloc::Global;
use std::marker::Model;

/// A sink in memory, of a fixed room.
#[derive(Drop)]
pub struct MemSink {
    bytes: Vec<u8>,
    step: usize,
    room: usize,
    faults: u64,
}

impl Model for MemSink {
    ghost use Rattle.std.specs.Prelude.{◌<◌, ◌≤◌, length, vec_capacity};
    ghost use Rattle.outside_io.specs.Counts.{one_more};
    ghost use Rattle.outside_io.specs.MemStates.{SinkState};

    ghost Value = { SinkState };

    ghost view = { λ s. record {
      taken = s.bytes.items;
      step = s.step;
      room = s.room;
      faults = s.faults;
    } };

    ghost invariant = { λ s. (0 < s.step) × (length s.bytes.items ≤ s.room)
        × (s.room ≤ vec_capacity s.bytes) };
}

impl MemSink {
    /// A sink that takes at most `step` bytes a call and `room` bytes in all. Its room is taken
    /// here.
    pub fn new(alloc: Global, step: usize, room: usize) -> Result<MemSink, Memory>
        requires { 0 < step }
        ensures { IfOk result
            (λ s. s ≡ record { taken = []; step = step; room = room; faults = 0 }) }
    {
        Ok(MemSink {
            bytes: Vec::with_capacity(alloc, room)?,
            step,
            room,
            faults: 0,
        })
    }

    /// The bytes taken so far.
    pub fn written(&self) -> &[u8]
        ensures { result.now ≡ self.now.taken }
    {
        self.bytes.as_slice()
    }
}

impl Sink for MemSink {
    ghost use Rattle.std.specs.Prelude.{Some};

    ghost written = { λ s. Some s.taken };

    ghost faults = { λ s. s.faults };

    // It fails exactly where its room is full.
    fn write_some(&mut self, piece: &[u8]) -> Result<usize, Failed>
        ensures answer { result ≡ write_answer self.old (length piece.now) }
        ensures grew { IfOk result
            (λ n. self.new ≡ record self.old { taken = self.old.taken ++ take n piece.now }) }
        ensures fault { OnErr result
            (self.new ≡ record self.old { faults = one_more self.old.faults }) }
        ensures some { IfOk result (λ n. 0 < length piece.now → 0 < n) }
        ensures faults_kept { self.old.faults ≤ self.new.faults }
    {
        if piece.is_empty() {
            return Ok(0);
        }
        let left = self.room - self.bytes.len();
        if left == 0 {
            self.faults = self.faults.saturating_add(1);
            return Err(Failed);
        }
        let n = piece.len().min(self.step.min(left));
        match self.bytes.extend_from_slice(&piece[..n]) {
            Ok(()) => Ok(n),
            Err(_) => unreachable!(),
        }
    }
}
