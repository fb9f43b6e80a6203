//! The core of port-driven execution as plain data: ports, node words and views, the 19 kinds of
//! step that change them, and the laws that every step keeps. There is no code here: the crate
//! `exec_core` replays lists of events over it, and a running table takes its laws from it.
//!
//! - `specs/Views.antt`: what a state has at a node, at an edge and in a node's view.
//! - `specs/Steps.antt`: for each kind of step its condition (`may`), the state after it (`after`)
//!   and its answer, from the word that it reads. `specs/Start.antt`: the state at the start.
//! - `specs/Laws.antt`: the laws, in three groups that can be used apart: edges and sights; node
//!   words, views and told changes; tokens.
//! - `proofs/Kept.antt`: each kind of step keeps each group; `proofs/Starts.antt`: the state at the
//!   start meets them; `proofs/Settled.antt`: what a state shows in which nothing is pending.
#![tactic(auto)]

mod types;

pub use port_word::{Flags, Reserve, Wire};
pub use types::{Act, CoreState, Event, NodeState, PortState, Sight, Sizes, Step};
