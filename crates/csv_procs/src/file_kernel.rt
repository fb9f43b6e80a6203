ghost use Rattle.std.specs.Prelude.{◌≡◌};
ghost use Rattle.csv_procs.specs.Names.{Bool, FileState as State, GrowsByPaths, IfOk, MatchesReader, OnErr, PartSpec as Part, Steps, csv_kind, open_in, sourcing, stage_in, true, ℕ};

use crate::feeds::Feeds;
use chunk_data::Memory;
use proc_api::{BoxNotes, Growth, Wake, WorkFault};
use proc_shell::Kernel;
use std::alloc::Global;

/// A kernel that reads a file, that of a part or list.
pub trait FileKernel: Kernel {
    ghost lists: { Bool };

    ghost part_of: { Self → Part };

    ghost file_of: { Self → State };

    /// Makes one step of the fetch of its file: opens its path, or reads on.
    fn feed<F: Feeds>(
        &mut self,
        alloc: Global,
        reader: &mut F,
        notes: &mut BoxNotes,
    ) -> Result<Wake, WorkFault>
        requires { MatchesReader (F.reader reader.old).files (F.reader reader.old).position lists
            (part_of self.old) (stage_in (part_of self.old) (file_of self.old))
            notes.old.given notes.old.pendings }
        ensures part { part_of self.new ≡ part_of self.old }
        ensures opens { open_in (file_of self.old) ≡ true → open_in (file_of self.new) ≡ true }
        ensures steps { Steps (F.reader reader.old) (F.reader reader.new) lists (part_of self.old)
            (file_of self.old) (file_of self.new) notes.old notes.new result };

    /// Lets a list grow that is valid, names a path, and hasn't grown.
    fn grow(&mut self, alloc: Global) -> Result<Growth, Memory>
        ensures part { part_of self.new ≡ part_of self.old }
        ensures grows { IfOk result (GrowsByPaths lists (part_of self.old) (file_of self.old)
            (file_of self.new)) }
        ensures unchanged { OnErr result (file_of self.new ≡ file_of self.old) }
        ensures open { open_in (file_of self.new) ≡ open_in (file_of self.old) };

    ghost kinds: { csv_kind lists ≡ Self.kind_is };

    ghost shows: { (k : Self) → Self.state k ≡ sourcing lists (part_of k) (file_of k) };

    ghost opens: { (k : Self) (i : ℕ) → Self.open_to k i ≡ open_in (file_of k) };
}
