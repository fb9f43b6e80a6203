//! The ports of one node of a port-driven executor: its picture of them, which its processor gets
//! as a view, and its seat of the execution table. A node looks at its ports, and what its
//! processor did to the view is carried out on the shared ports, action after action, as each peer
//! is told.
//!
//! Nothing here knows a processor. The tie between seat and view is `PortsHold` in
//! `specs/Ports.antt`: the view shows the ports as the seat knows them, but for the actions that
//! wait. Looking and carrying out leave what the processor pulled and pushed (`SameLists`), so what
//! a box keeps of its chunks is never touched here.
//!
//! - `ports.rt`: what a node has of its ports
//! - `sights.rt`: a node looks at its updated ports, and lifts a chunk that came
//! - `actions.rt`: actions are carried out, and peers are told
#![tactic(auto)]

mod actions;
mod ports;
mod sights;

pub use actions::{Carry, carry_next};
pub use ports::NodePorts;
pub use sights::{look_at_updated, merge_updated};
