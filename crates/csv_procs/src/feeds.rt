ghost use Rattle.std.specs.Prelude.{◌≡◌, ◌<◌, length};
ghost use Rattle.csv_procs.specs.Names.{BlockGiven, CountIncreased, IfOk, IfSome, IsAfter, IsSome, IsWholeFile, OnErr, OnOk, ReadGives, ReaderState, Some, lists_in, told_bytes};

use crate::file_fetch::{BLOCK, Fetched, fetch_by};
use crate::file_kernel::FileKernel;
use crate::file_state::FileState;
use crate::listed_growth::listed_growth;
use crate::listed_paths::read_list;
use crate::sourcing::{Sourced, Sourcing};
use chunk_data::{Bytes, Memory};
use csv_rows::RowReader;
use outside_io::{Failed, FileReader, Got};
use proc_api::{BoxNotes, Growth, Wake, WorkFault};
use std::alloc::Global;
use std::mem::replace;

/// The most bytes of a part.
const MOST_BYTES: usize = 1_073_741_824;

/// The reader stalls as soon as it had nothing to give so often.
const MOST_PENDINGS: u64 = 1_000_000;

/// A reader as its source uses it.
pub trait Feeds {
    ghost reader: { Self → ReaderState };

    /// Opens a file at its first byte.
    fn open_file(&mut self, path: &Bytes) -> Result<(), Failed>
        ensures after { IsAfter (reader self.old) (reader self.new) }
        ensures opened { OnOk result ((reader self.new).position ≡ Some (path.now, 0)) }
        ensures found { OnOk result (IfSome (reader self.old).files
            (λ all. IsSome (told_bytes all path.now))) }
        ensures fault { OnErr result
            (CountIncreased (reader self.old).faults (reader self.new).faults) };

    /// Reads the next bytes of the file in which it stands into the front of the buffer.
    fn read_block(&mut self, buffer: &mut [u8]) -> Result<Got, Failed>
        requires open { IsSome (reader self.old).position }
        requires room { 0 < length buffer.old }
        ensures after { IsAfter (reader self.old) (reader self.new) }
        ensures gives { BlockGiven (reader self.old) (reader self.new) buffer.new result };
}

impl<R: FileReader> Feeds for R {
    ghost reader = { R.reader };

    fn open_file(&mut self, path: &Bytes) -> Result<(), Failed> {
        self.open_path(path)
    }

    fn read_block(&mut self, buffer: &mut [u8]) -> Result<Got, Failed> {
        self.read_some(buffer)
    }
}

// Makes one read of the file in which the reader stands, and notes what it gave.
fn fetch_more<F: Feeds>(
    reader: &mut F,
    buffer: &mut [u8; BLOCK],
    held: &mut Bytes,
    notes: &mut BoxNotes,
) -> Result<Fetched, WorkFault>
    requires { IsSome (F.reader reader.old).position }
    ensures after { IsAfter (F.reader reader.old) (F.reader reader.new) }
    ensures gives { ReadGives (F.reader reader.old) (F.reader reader.new) held.old held.new
        notes.old notes.new result }
{
    let had = held.len();
    match fetch_by(reader, buffer, held, MOST_BYTES as u64) {
        Ok(Fetched::More) => {
            notes.note_given(held.len() - had);
            Ok(Fetched::More)
        }
        Ok(Fetched::Whole) => Ok(Fetched::Whole),
        Ok(Fetched::Pending) => {
            notes.note_pending();
            if notes.pendings() >= MOST_PENDINGS {
                return Err(WorkFault::Stalled);
            }
            Ok(Fetched::Pending)
        }
        Err(WorkFault::Read) => {
            notes.note_failed();
            Err(WorkFault::Read)
        }
        Err(WorkFault::TooLong) => {
            notes.note_given((MOST_BYTES + 1).saturating_sub(had));
            Err(WorkFault::TooLong)
        }
        Err(fault) => Err(fault),
    }
}

// What is made of the bytes of a file that is fetched whole: a part's rows are in front of the
// first record.
fn whole_file(alloc: Global, lists: bool, bytes: Bytes, header: bool) -> Result<FileState, Memory>
    ensures whole { IfOk result (IsWholeFile lists header bytes) }
    ensures read { IfOk result (λ s. lists_in lists s ≡ lists) }
{
    if lists {
        return Ok(FileState::Paths(read_list(alloc, bytes.as_slice())?));
    }
    Ok(FileState::Rows(RowReader::new(alloc, bytes.into_vec(), header)?))
}

impl<S: Sourced> FileKernel for Sourcing<S> {
    ghost use Rattle.std.proofs.Common.{refl};

    ghost lists = { S.lists };

    ghost part_of = { λ k. k.part };

    ghost file_of = { λ k. k.state };

    ghost kinds = { refl };

    ghost shows = { λ k. refl };

    ghost opens = { λ k i. refl };

    fn feed<F: Feeds>(
        &mut self,
        alloc: Global,
        reader: &mut F,
        notes: &mut BoxNotes,
    ) -> Result<Wake, WorkFault> {
        match &mut self.state {
            FileState::Shut => match reader.open_file(&self.part.path) {
                Ok(()) => {
                    self.state = FileState::Fetching(Bytes::new(alloc));
                    Ok(Wake::Later)
                }
                Err(Failed) => {
                    notes.note_failed();
                    Err(WorkFault::Read)
                }
            },
            FileState::Fetching(held) => match fetch_more(reader, &mut self.buffer, held, notes) {
                Ok(Fetched::Whole) => {
                    let bytes = replace(held, Bytes::new(alloc));
                    match whole_file(alloc, S::lists(), bytes, self.part.header) {
                        Ok(whole) => {
                            self.state = whole;
                            Ok(Wake::Ready)
                        }
                        Err(_) => Err(WorkFault::Memory),
                    }
                }
                Ok(Fetched::More) => Ok(Wake::Later),
                Ok(Fetched::Pending) => Ok(Wake::Later),
                Err(fault) => Err(fault),
            },
            // It answers Async and Later only until then.
            FileState::Rows(_) | FileState::Paths(_) => Err(WorkFault::Memory),
        }
    }

    fn grow(&mut self, alloc: Global) -> Result<Growth, Memory> {
        let FileState::Paths(list) = &mut self.state else {
            return Err(Memory);
        };
        if list.grown || list.bad_line.is_some() || list.paths.len() == 0 {
            return Err(Memory);
        }
        let growth = listed_growth(alloc, &self.part, &list.paths)?;
        list.grown = true;
        Ok(growth)
    }
}
