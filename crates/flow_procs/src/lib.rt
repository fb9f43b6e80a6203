//! Processors that pass rows on, make numbers, or gather rows.
#![tactic(auto)]

mod collect;
mod expression;
mod filter;
mod limit;
mod numbers;
mod resize;

pub use collect::{Collect, Gathering};
pub use expression::{Evaluating, Expression};
pub use filter::{Filter, Filtering};
pub use limit::{Limit, Limiting};
pub use numbers::{Counting, Numbers};
pub use resize::{Resize, Resizing};
