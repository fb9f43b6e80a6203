ghost use Rattle.std.specs.Prelude.{◌≡◌, ◌≤◌, ◌+◌, length, IfSome, IfNone};

use crate::entries::{Failed, Got};
use crate::reader::FileReader;
use chunk_data::Bytes;
use std::fs::File;
use std::io::Read;
use std::rt::Files;
use std::str;

/// A file of the system that stands open. Its path is kept, and how many bytes were read.
#[derive(Drop)]
struct Opened<F> {
    file: F,
    path: Bytes,
    place: usize,
}

/// Files of the system. It tells nothing of their content, and never answers `Pending`. A path that
/// is not UTF-8, a file that cannot be opened and a folder are faults; so is want of memory for the
/// copy of a path.
#[derive(Drop)]
pub struct RealFiles<R: Files> {
    rt: R,
    opened: Option<Opened<R::File>>,
    faults: u64,
}

impl<R: Files + Clone + Drop + Send> RealFiles<R>
where
    R::File: Send,
{
    /// A reader of the system's files, none of which stands open.
    pub fn new(rt: R) -> RealFiles<R>
        ensures { ⟦<RealFiles<R> as FileReader>⟧.reader result ≡ record {
          files = None;
          position = None;
          faults = 0;
          pendings = 0;
        } }
    {
        RealFiles {
            rt,
            opened: None,
            faults: 0,
        }
    }
}

/// Opens the file at the path for reading, if it can.
fn open_file<R: Files>(rt: &R, path: &Bytes) -> Option<Opened<R::File>>
    ensures { IfSome result (λ o. (o.path ≡ path.now) × (o.place ≡ 0)) }
{
    let Ok(name) = str::from_utf8(path.as_slice()) else {
        return None;
    };
    let Ok(file) = File::open(rt, name) else {
        return None;
    };
    match path.copy() {
        Ok(path) => Some(Opened {
            file,
            path,
            place: 0,
        }),
        Err(_) => None,
    }
}

/// Reads the next bytes into the buffer; `None` where the read fails.
fn read_block<F: Read>(opened: &mut Opened<F>, buf: &mut [u8]) -> Option<usize>
    ensures bound { IfSome result (λ n. n ≤ length buf.new) }
    ensures path { opened.new.path ≡ opened.old.path }
    ensures moved { IfSome result (λ n. opened.new.place ≡ opened.old.place + n) }
    ensures stays { IfNone result (opened.new.place ≡ opened.old.place) }
{
    if buf.len() > usize::MAX - opened.place {
        return None;
    }
    match opened.file.read(buf) {
        Ok(n) => {
            opened.place += n;
            Some(n)
        }
        Err(_) => None,
    }
}

impl<R: Files + Clone + Drop + Send> FileReader for RealFiles<R>
where
    R::File: Send,
{
    ghost use Rattle.std.specs.Prelude.{None};
    ghost use Rattle.std.specs.Option.{option_map};

    ghost reader = { λ s. record {
      files = None;
      position = option_map (λ o. (o.path, o.place)) s.opened;
      faults = s.faults;
      pendings = 0;
    } };

    fn open_path(&mut self, path: &Bytes) -> Result<(), Failed> {
        self.opened = open_file(&self.rt, path);
        if self.opened.is_some() {
            Ok(())
        } else {
            self.faults = self.faults.saturating_add(1);
            Err(Failed)
        }
    }

    fn read_some(&mut self, buf: &mut [u8]) -> Result<Got, Failed> {
        let Some(opened) = &mut self.opened else {
            unreachable!()
        };
        match read_block(opened, buf) {
            Some(0) => Ok(Got::End),
            Some(n) => Ok(Got::Bytes(n)),
            None => {
                self.faults = self.faults.saturating_add(1);
                Err(Failed)
            }
        }
    }

    fn shut(&mut self) {
        self.opened = None;
    }
}
