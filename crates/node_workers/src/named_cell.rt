//! A cell on the shelf.
ghost use Rattle.node_workers.specs.Names.{Names};

use growth_notes::{GrowthNote, NoteCopy};
use node_births::NotedGrowth;
use node_cells::{NodeCell, StopCause};
use proc_api::Processor;
use std::marker::PhantomData;
use task_queue::Placed;

/// What is named of a run. It has no calls.
pub trait Naming: Send + Sync {
    ghost names: { Names };
}

/// What a node knows of the growths of a reserve.
#[derive(Drop)]
pub enum CellNote {
    /// Nothing: it has no reserve, and wasn't born of one.
    Bare,
    /// All growths of its own reserve.
    Own(GrowthNote<NotedGrowth>),
    /// The growths of the reserve that holds it, up to the one that it was born of.
    Copied(NoteCopy<NotedGrowth>),
}

/// A node's cell with what the node knows of growths, and the cause for which the run was stopped
/// at it.
#[derive(Drop)]
pub struct NamedCell<P: Processor, J: Naming> {
    pub cell: NodeCell<P>,
    pub note: CellNote,
    pub stopped: Option<StopCause>,
    pub names: PhantomData<J>,
}

/// A node's cell as the workers left it, with what the node knows of growths, and the cause for
/// which the run was stopped at it.
#[derive(Drop)]
pub struct EndedCell<P: Processor> {
    pub cell: NodeCell<P>,
    pub note: CellNote,
    pub stopped: Option<StopCause>,
}

impl<P: Processor, J: Naming> Placed for NamedCell<P, J> {
    ghost use Rattle.node_workers.specs.Named.{CellFits};

    ghost fits = { λ c n. CellFits J.names P.seen n c.cell c.stopped c.note };
}
