//! One node's picture of its ports: what a processor and the executor that drives it see of each
//! connection.
//!
//! A picture has, for each input, the port's flags as this node last saw and changed them and the
//! chunk that lies there for it; for each output the flags; and the list of actions that this node
//! has taken on its ports and the executor hasn't carried out yet. A processor changes its
//! `PortView` by `pull`, `set_needed`, `set_not_needed`, `close`, `push` and `finish`, and each of
//! these puts its action into the list. No such call takes memory: `new` and `grow` take room for
//! every action that can stand in the list.
//!
//! An executor brings a port up to date by `see`, lets the processor prepare, and then takes the
//! actions one by one by `next_action` and carries each out on the shared port. Carried out in this
//! order on the flags that it showed, they give the flags of the picture, and each stands where the
//! port allows it: a push where the port is needed, empty and open, a pull where there is data
//! (`Explains` of `specs/Differences.antt`, kept by every call as `proofs/Differences.antt` shows).
#![tactic(auto, unfolding(crate::specs::Pictures::input_at, crate::specs::Pictures::output_at, crate::specs::Pictures::with_input, crate::specs::Pictures::with_output, crate::specs::Pictures::with_actions, crate::specs::Pictures::in_count, crate::specs::Pictures::out_count))]

mod flags;
mod notes;
mod port_view;

pub use flags::{Action, Flags, Port, Reserve, Wire};
pub use port_view::{InputPort, PortView};
