//! Which nodes a checked query becomes.
//!
//! `plan` lays down the nodes of a SELECT step by step. The table of steps is `plan_nodes` of
//! `plan_laws/specs/Plans.antt`, and what a query fills in is `select_plan` of its
//! `specs/Steps.antt`. The rank of a node is the number of its step. Each lane has a copy of a
//! condition, of the items, of the keys and of the groups. `needs` counts a plan's boxes by kind.
#![tactic(auto)]

mod copies;
mod groups;
mod lanes;
mod parts;
mod steps;
mod stock;

pub use plan_laws::{Plan, PlanEdge, PlanNode, PlanRefusal, PlanReserve};
pub use steps::plan;
pub use stock::needs;
