//! The end of a run of a graph, after its workers: one caller has the table and the cells of all
//! nodes.
//!
//! As the last worker it takes up each node that the run left due, until a survey of the table
//! finds nothing pending. The run is then done where the view of each node at rest supports its
//! last status, and else stuck at a node whose box isn't lawful, since in ClickHouse's
//! `IProcessor.h` a status says what a processor waits for. It ends before that at a node whose box
//! answers a fault, or asks for the graph to grow: workers do that.
//!
//! - `cells_survey.rt`: a survey of the table with the seats of all cells
//! - `node_ends.rt`: the run goes on to its end
//! - `resting.rt`: whether the views of nodes at rest support their last status
//! - `specs/CellLists.antt`: the cells of all nodes, and the graph that they run;
//!   `specs/RunEnds.antt`: what each end says
#![tactic(auto)]

mod cells_survey;
mod node_ends;
mod resting;

pub use cells_survey::{NodeBody, SurveyRoom};
pub use node_ends::{EndRoom, NodesEnd, end_nodes, new_end_room};
pub use resting::rests;
