//! Lists of events replayed over the core of port-driven execution: `replay` takes a state through
//! them and says which event is the first that is no step, and `start` makes the state at the
//! start.
//!
//! Types, the definition of the steps and their laws stand in the crate `core_laws`, so that a
//! running table, which is tied to them, isn't checked again with this code. A step is tested here
//! by `conditions.rt` and made by `port_steps.rt` and `node_steps.rt`, each the definition's plain
//! program.
#![tactic(auto, using(crate::proofs::Replaced::replaced))]

mod conditions;
mod events;
mod lookups;
mod node_steps;
mod places;
mod port_steps;
mod start_state;

pub use conditions::is_step;
pub use core_laws::{
    CoreState, Event, Flags, NodeState, PortState, Reserve, Sight, Sizes, Step, Wire,
};
pub use events::{ReplayEnd, replay};
pub use start_state::Start;
