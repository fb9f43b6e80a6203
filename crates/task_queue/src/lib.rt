//! How the workers of an executor get their nodes: a queue of node numbers, and a shelf of what
//! belongs to each node, from which one worker at a time takes it.
//!
//! A `TaskQueue` is used through passes. At every moment the numbers that were put through all
//! passes are those that were taken through all passes and those that are left, each as often. A
//! `Shelf` is used through seats. A seat takes the value of a place, which nobody else has until
//! that seat puts it back, or claims the place and works on the value where it lies. Whatever the
//! threads do, the value at a place fits that place, as the trait `Placed` of its type says.
//!
//! - `queue.rt`: the queue, its rule and its passes
//! - `bell.rt`: where those who find no number sleep
//! - `tasks.rt`: what a worker has of a queue
//! - `shelf.rt`: the shelf and its calls
//! - `seat.rt`: the rule of a shelf, its seats, and what each of their steps tells
//! - `layout.rt`: how values lie in slots, and the room that is kept for `clear`
#![tactic(auto)]

mod bell;
mod layout;
mod queue;
mod seat;
mod shelf;
mod tasks;

pub use bell::Bell;
pub use queue::{QueuePass, TaskQueue};
pub use seat::{Holding, ShelfSeat};
pub use shelf::{Placed, Shelf};
pub use tasks::WorkerTasks;
