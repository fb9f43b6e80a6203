ghost use Rattle.std.specs.Prelude.{◌≡◌, ◌<◌, ◌≤◌, ◌-◌, min, length, take, drop, Some, None, IfSome, IfNone, IsSome, IsNone, IsOk, OnOk, OnErr, ◌↔◌};
ghost use Rattle.outside_io.specs.MemStates.{MemBlockGiven, one_call_more, fake_of, bytes_left, read_answer};
ghost use Rattle.outside_io.specs.Told.{told_bytes};
ghost use Rattle.outside_io.specs.Counts.{one_more};
ghost use Rattle.outside_io.specs.Scripts.{IsRising};
ghost use Rattle.outside_io.specs.MemEntries.{IsEntryOf};

use crate::entries::{Failed, Fake, FakeKind, FileEntry, Got};
use crate::reader::FileReader;
use crate::script::Script;
use chunk_data::{Bytes, List};
use std::alloc::Global;
use std::marker::Model;

/// Where a reader stands: the entry's index, and the place in its bytes.
#[derive(Clone, Copy, Drop)]
struct Standing {
    index: usize,
    place: usize,
}

/// Files in memory, read by a script of fakes.
#[derive(Drop)]
pub struct MemFiles {
    entries: List<FileEntry>,
    standing: Option<Standing>,
    faults: u64,
    pendings: u64,
    script: Script,
}

impl Model for MemFiles {
    ghost use Rattle.outside_io.specs.MemStates.{FilesState};

    ghost Value = { FilesState };

    ghost use Rattle.outside_io.specs.MemEntries.{stand_of, StandsWithin};

    ghost view = { λ s. record {
      files = s.entries;
      position = stand_of s.entries s.standing;
      faults = s.faults;
      pendings = s.pendings;
      script = s.script.0;
      calls = s.script.1;
    } };

    ghost invariant = { λ s. StandsWithin s.entries s.standing };
}

/// The index of the first entry with the path.
fn find_entry(entries: &List<FileEntry>, path: &Bytes) -> Option<usize>
    ensures found { IfSome result (λ i. IsEntryOf entries.now path.now i) }
    ensures absent { IfNone result (told_bytes entries.now path.now ≡ None) }
{
    for (i, entry) in entries.as_slice().iter().enumerate() {
        if entry.path.as_slice() == path.as_slice() {
            return Some(i);
        }
    }
    None
}

/// Copies the bytes from the place on into the front of the buffer, as many as there are room for.
fn copy_block(bytes: &[u8], place: usize, buf: &mut [u8]) -> usize
    requires { place ≤ length bytes.now }
    ensures count { result ≡ min (length buf.old) (length bytes.now - place) }
    ensures copied { take result buf.new ≡ take result (drop place bytes.now) }
{
    let n = buf.len().min(bytes.len() - place);
    buf[..n].copy_from_slice(&bytes[place..place + n]);
    n
}

impl MemFiles {
    /// A reader of these files. A call that the script names fails or is pending; other calls
    /// succeed for paths that are there. Calls of `open_path` and `read_some` are counted together.
    pub fn new(_alloc: Global, files: List<FileEntry>, script: List<Fake>) -> MemFiles
        requires { IsRising script }
        ensures { result ≡ record {
          files = files;
          position = None;
          faults = 0;
          pendings = 0;
          script = script;
          calls = 0;
        } }
    {
        MemFiles {
            entries: files,
            standing: None,
            faults: 0,
            pendings: 0,
            script: Script::new(script),
        }
    }
}

impl FileReader for MemFiles {
    ghost use Rattle.std.specs.Prelude.{Some};

    ghost reader = { λ s. record {
      files = Some s.files;
      position = s.position;
      faults = s.faults;
      pendings = s.pendings;
    } };

    fn open_path(&mut self, path: &Bytes) -> Result<(), Failed>
        ensures exact { IsOk result ↔
            (IsNone (fake_of self.old) × IsSome (told_bytes self.old.files path.now)) }
        ensures opened { OnOk result
            (self.new ≡ record (one_call_more self.old) { position = Some (path.now, 0) }) }
        ensures fault { OnErr result
            (self.new
            ≡ record (one_call_more self.old)
            { position = None; faults = one_more self.old.faults }) }
        ensures faults_kept { self.old.faults ≤ self.new.faults }
    {
        self.standing = None;
        let fake = self.script.next_call();
        let found = find_entry(&self.entries, path);
        match (fake, found) {
            (None, Some(index)) => {
                self.standing = Some(Standing { index, place: 0 });
                Ok(())
            }
            _ => {
                self.faults = self.faults.saturating_add(1);
                Err(Failed)
            }
        }
    }

    fn read_some(&mut self, buf: &mut [u8]) -> Result<Got, Failed>
        requires position { IsSome self.old.position }
        requires room { 0 < length buf.old }
        ensures answer { result ≡
            read_answer (fake_of self.old) (length buf.old) (bytes_left self.old) }
        ensures gives { MemBlockGiven self.old self.new buf.new result }
        ensures stays_open { IsSome self.new.position }
        ensures faults_kept { self.old.faults ≤ self.new.faults }
        ensures pendings_kept { self.old.pendings ≤ self.new.pendings }
    {
        match self.script.next_call() {
            Some(FakeKind::Fail) => {
                self.faults = self.faults.saturating_add(1);
                Err(Failed)
            }
            Some(FakeKind::Pend) => {
                self.pendings = self.pendings.saturating_add(1);
                Ok(Got::Pending)
            }
            None => match self.standing {
                None => unreachable!(),
                Some(at) => {
                    let bytes = self.entries.as_slice()[at.index].bytes.as_slice();
                    let n = copy_block(bytes, at.place, buf);
                    if n == 0 {
                        return Ok(Got::End);
                    }
                    self.standing = Some(Standing {
                        index: at.index,
                        place: at.place + n,
                    });
                    Ok(Got::Bytes(n))
                }
            },
        }
    }

    fn shut(&mut self)
        ensures { self.new ≡ record self.old { position = None } }
    {
        self.standing = None;
    }
}
