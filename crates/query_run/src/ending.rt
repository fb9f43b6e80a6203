ghost use Rattle.std.specs.Prelude.{◌≡◌, ◌≤◌};
ghost use Rattle.query_run.specs.Names.{CountIncreased, refused_status, plan_status, status_of, line_of, TellsLine};

use crate::stock::Shortage;
use crate::telling::{failure_pieces, named, tell};
use chunk_data::Bytes;
use outside_io::Sink;
use proc_api::WorkFault;
use query_model::processor_spec::Kind;
use query_model::query::Refusal;
use sql_text::ParseRefusal;

/// A part as lines name it: its table's name, and its number in the table, from 1; 0 is the list
/// that names the table's parts.
#[derive(Drop)]
pub(crate) struct PartName {
    pub table: Bytes,
    pub part: u32,
}

/// Why no checked query was had of a text.
#[derive(Drop)]
pub(crate) enum Refused {
    /// No query was read from the text.
    Text(ParseRefusal),
    /// The query that was read meets a condition.
    Query(Refusal),
}

/// Why the plan of a checked query gave no text.
#[derive(Drop)]
pub(crate) enum PlanFailure {
    /// A table of this name names so many paths.
    Paths(Bytes, u64),
    /// The rack has too few boxes.
    Stock(Shortage),
    /// What a part failed by, or the device that it was read from.
    Part(PartName, WorkFault),
    /// A box of this kind broke the contract of processors.
    Unlawful(Kind),
    Memory,
}

/// Why a run failed before its first byte was written.
#[derive(Drop)]
pub(crate) enum Failure {
    Usage,
    Refused(Refused),
    Plan(PlanFailure),
    Memory,
}

/// How a run ended.
#[derive(Drop)]
pub(crate) enum Ending {
    Answered,
    Failed(Failure),
    WriteFailed,
}

fn refused_status(refused: &Refused) -> u8
    ensures { result ≡ refused_status refused.now }
{
    match refused {
        Refused::Text(ParseRefusal::Memory) | Refused::Query(Refusal::Memory) => 7,
        Refused::Text(_) | Refused::Query(_) => 2,
    }
}

fn plan_status(failure: &PlanFailure) -> u8
    ensures { result ≡ plan_status failure.now }
{
    match failure {
        PlanFailure::Part(_, WorkFault::Bad(_) | WorkFault::BadList(_)) => 3,
        PlanFailure::Part(_, WorkFault::Read | WorkFault::Stalled) => 4,
        PlanFailure::Paths(_, _) | PlanFailure::Stock(_) | PlanFailure::Unlawful(_) => 6,
        PlanFailure::Part(_, WorkFault::TooLong) => 6,
        PlanFailure::Part(_, WorkFault::Memory) | PlanFailure::Memory => 7,
    }
}

impl Ending {
    pub(crate) fn status(&self) -> u8
        ensures { result ≡ status_of self.now }
    {
        match self {
            Ending::Answered => 0,
            Ending::Failed(Failure::Usage) => 1,
            Ending::Failed(Failure::Refused(refused)) => refused_status(refused),
            Ending::Failed(Failure::Plan(failure)) => plan_status(failure),
            Ending::Failed(Failure::Memory) => 7,
            Ending::WriteFailed => 5,
        }
    }

    /// Writes the line of the ending, piece by piece and without memory. A fault of the sink is
    /// not reported.
    pub(crate) fn tell<E: Sink>(&self, err: &mut E)
        ensures line { TellsLine (line_of self.now)
            (E.written err.old) (E.written err.new)
            (CountIncreased (E.faults err.old) (E.faults err.new)) }
        ensures faults_kept { E.faults err.old ≤ E.faults err.new }
    {
        match self {
            Ending::Answered => {}
            Ending::Failed(failure) => tell(err, &failure_pieces(failure)),
            Ending::WriteFailed => tell(err, &named(b"qrun: write fault", b"")),
        }
    }
}
