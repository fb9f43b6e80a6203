//! Runs the nodes of a plan by boxes that it takes from a rack and gives back.
#![tactic(auto)]

mod boxes;
mod run;

pub use boxes::unload_boxes;
pub use run::{GraphForm, PlanFault, PlanGraph, run_plan};
