ghost use Rattle.std.specs.Prelude.{◌≡◌, ◌≢◌, ◌⊎◌};
ghost use Rattle.proc_api.specs.Names.{BoxPicture, ChangedByCalls, CountsOn, Expands, Faults, FollowsKept, HasNoReader, IfErr, IfOk, IsLoadRefused, IsRunning, IsSourceKind, IsToGrow, IsToWork, IsTrue, KeepsLimits, KeepsUnlessOut, List, Loads, MaySchedule, None, NotesView, OfPart, OnOk, Option, PreparesLawfully, PulledOn, SameBox, SameCounts, SamePulled, Schedules, StandsBehind, Unloads, Works, false, handed_out_by, row_of, ℕ};

use crate::growth::Growth;
use crate::status::{LoadRefusal, Status, Wake, WorkFault};
use chunk_data::Chunk;
use port_word::PortView;
use query_model::processor_spec::{Kind, Spec};

/// A processor of rows, as in ClickHouse's `IProcessor`: chunks come to its inputs and leave by its
/// outputs.
///
/// A blank one is loaded with what it is to do. Then `prepare` moves chunks between it and the view
/// of its ports and says what comes next, and `work`, `schedule` and `expand` do it without
/// touching a port. After a fault only `kind`, `take_rows` and `unload` may be called, and after a
/// Collect's rows were taken only `kind` and `unload`.
pub trait Processor: Drop + Send {
    ghost seen: { Self → BoxPicture };

    /// Where its reader stands: a path, and the place in its file; none where it has no reader, or
    /// that is shut.
    ghost position: { Self → Option (List ℕ × ℕ) };

    /// The kind of processor, which never changes.
    fn kind(&self) -> Kind
        ensures kind { result ≡ (seen self.now).kind }
        ensures reader { IsSourceKind result ⊎ HasNoReader (seen self.now) };

    /// Loads a blank processor. After a refusal it is as it was, and the spec is dropped.
    fn load(&mut self, spec: Spec) -> Result<(), LoadRefusal>
        ensures ok { OnOk result (Loads (seen self.old) spec (seen self.new)) }
        ensures refused { IfErr result (λ r. IsLoadRefused r (seen self.old) spec) }
        ensures unchanged { IfErr result (λ r. seen self.new ≡ seen self.old) };

    /// Pulls from inputs, pushes to outputs and says what is needed. It takes no memory.
    fn prepare(&mut self, view: &mut PortView) -> Status
        requires running { IsRunning (seen self.old) }
        requires follows { FollowsKept (seen self.old) view.old }
        ensures same { SameBox (seen self.old) (seen self.new) }
        ensures counts { CountsOn (seen self.old) (seen self.new) }
        ensures pulled { PulledOn (seen self.old) (seen self.new) }
        ensures changed { ChangedByCalls view.old view.new }
        ensures notes { NotesView (seen self.old) (seen self.new) view.new result }
        ensures lawful { IsTrue (seen self.old).lawful
            → PreparesLawfully (seen self.old) view.old (seen self.new) view.new result };

    /// Works on what was pulled, or makes rows that can be pushed; once an answer.
    fn work(&mut self) -> Result<(), WorkFault>
        requires running { IsRunning (seen self.old) }
        requires ready { IsToWork (seen self.old) }
        ensures same { SameBox (seen self.old) (seen self.new) }
        ensures counts { CountsOn (seen self.old) (seen self.new) }
        ensures pulled { SamePulled (seen self.old) (seen self.new) }
        ensures ok { OnOk result (Works (seen self.old) (seen self.new)) }
        ensures fault { IfErr result (λ f. Faults f (seen self.old) (seen self.new)) }
        ensures limits { IsTrue (seen self.old).lawful
            → KeepsLimits (seen self.old) (seen self.new) };

    /// Makes one step of work with a device.
    fn schedule(&mut self) -> Result<Wake, WorkFault>
        requires running { IsRunning (seen self.old) }
        requires fetching { MaySchedule (seen self.old).notes.answer }
        ensures same { SameBox (seen self.old) (seen self.new) }
        ensures counts { CountsOn (seen self.old) (seen self.new) }
        ensures pulled { SamePulled (seen self.old) (seen self.new) }
        ensures ok { IfOk result (λ wake. Schedules wake (seen self.old) (seen self.new)) }
        ensures placed { IsTrue (seen self.old).lawful → IfOk result (λ wake. OfPart
            (seen self.new).spec (StandsBehind (seen self.new) (position self.new))) }
        ensures fault { IfErr result (λ f. Faults f (seen self.old) (seen self.new)) }
        ensures limits { IsTrue (seen self.old).lawful
            → KeepsLimits (seen self.old) (seen self.new) };

    /// Says by what the graph is to grow; once an answer.
    fn expand(&mut self) -> Result<Growth, WorkFault>
        requires running { IsRunning (seen self.old) }
        requires expanding { IsToGrow (seen self.old) }
        ensures same { SameBox (seen self.old) (seen self.new) }
        ensures counts { CountsOn (seen self.old) (seen self.new) }
        ensures pulled { SamePulled (seen self.old) (seen self.new) }
        ensures ok { IfOk result (λ growth. Expands growth (seen self.old) (seen self.new)) }
        ensures fault { IfErr result (λ f. Faults f (seen self.old) (seen self.new)) }
        ensures limits { IsTrue (seen self.old).lawful
            → KeepsLimits (seen self.old) (seen self.new) };

    /// The chunks that a Collect has gathered, in order; none of any other kind.
    fn take_rows(&mut self) -> Vec<Chunk>
        requires { (seen self.old).work.handed_out ≡ false }
        ensures rows { result.items ≡ handed_out_by (seen self.old).kind (seen self.old).work }
        ensures same { SameBox (seen self.old) (seen self.new) }
        ensures counts { SameCounts (seen self.old) (seen self.new) }
        ensures notes { (seen self.new).notes ≡ (seen self.old).notes }
        ensures growth { (seen self.new).growth ≡ (seen self.old).growth }
        ensures keeps { IsTrue (seen self.old).lawful
            → KeepsUnlessOut (seen self.old) (seen self.new) }
        ensures usable { (row_of (seen self.old).kind).hands_out ≡ false
            → seen self.new ≡ seen self.old };

    /// Makes the processor blank, and shuts its reader.
    fn unload(&mut self)
        ensures unloads { Unloads (seen self.old) (seen self.new) }
        ensures shut { position self.new ≡ None };
}

/// A box is a processor as what it holds, so that code for processors serves boxes.
impl Processor for Box<dyn Processor + Send> {
    ghost seen = { λ b. (Processor-box b).seen b.value };

    ghost position = { λ b. (Processor-box b).position b.value };

    fn kind(&self) -> Kind {
        (**self).kind()
    }

    fn load(&mut self, spec: Spec) -> Result<(), LoadRefusal> {
        (**self).load(spec)
    }

    fn prepare(&mut self, view: &mut PortView) -> Status {
        (**self).prepare(view)
    }

    fn work(&mut self) -> Result<(), WorkFault> {
        (**self).work()
    }

    fn schedule(&mut self) -> Result<Wake, WorkFault> {
        (**self).schedule()
    }

    fn expand(&mut self) -> Result<Growth, WorkFault> {
        (**self).expand()
    }

    fn take_rows(&mut self) -> Vec<Chunk> {
        (**self).take_rows()
    }

    fn unload(&mut self) {
        (**self).unload()
    }
}
