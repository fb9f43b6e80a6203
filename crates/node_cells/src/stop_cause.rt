//! Why the run of all stops at a node.
use exec_laws::GrowthFlaw;
use proc_api::WorkFault;

/// Why the run of all is to stop at a node.
#[derive(Clone, Copy, PartialEq, Eq, Drop)]
pub enum StopCause {
    /// A call of its processor answered this fault.
    Fault(WorkFault),
    /// Its processor asks that the graph grows by what has this flaw.
    Flaw(GrowthFlaw),
    /// The graph was to grow at it, for which memory was wanting.
    Memory,
}
