//! Tests of ports, graphs, processors and executors, a module for each crate that they test.
//!
//! They drive boxes of their own, and show what no contract says: that each public call succeeds
//! where memory is ample, and how a run ends over boxes that don't keep the contract of processors.
#![tactic(auto)]

#[cfg(test)]
mod chains;
#[cfg(test)]
mod csv_procs_tests;
#[cfg(test)]
mod driven;
#[cfg(test)]
mod exec_core_tests;
#[cfg(test)]
mod exec_graph_tests;
#[cfg(test)]
mod flow_procs_tests;
#[cfg(test)]
mod join_proc_tests;
#[cfg(test)]
mod node_ends_tests;
#[cfg(test)]
mod node_workers_tests;
#[cfg(test)]
mod pipeline_exec_tests;
#[cfg(test)]
mod plan_run_tests;
#[cfg(test)]
mod port_view_tests;
#[cfg(test)]
mod scripted;
#[cfg(test)]
mod sort_procs_tests;
#[cfg(test)]
mod table_slots_tests;
#[cfg(test)]
mod table_tests;
#[cfg(test)]
mod task_queue_tests;
