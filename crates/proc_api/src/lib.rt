//! What processors and executors agree on: the trait of processors, what each kind keeps of its
//! rows, and the rack.
#![tactic(auto)]

mod growth;
mod kind_rows;
mod notes;
mod processor;
mod pulled_rows;
mod rack;
mod shutting;
mod status;

pub use growth::{Edge, End, GrowNode, Growth, Who};
pub use kind_rows::{KINDS, KindRow, kind_row};
pub use notes::BoxNotes;
pub use processor::Processor;
pub use pulled_rows::PulledRows;
pub use query_model::places::{BadField, BadPlace};
pub use rack::Rack;
pub use shutting::{finish_all, shut_down};
pub use status::{Answer, LoadRefusal, Status, Wake, WorkFault};
