//! What a plan is and what it answers, over plain data.
//!
//! **Graphs.** A plan is a list of nodes in order. Each takes a run of the open ends as its inputs
//! and puts its outputs in their place (`specs/Drafts.antt`); blocks of nodes that plans are made
//! of stand in `specs/Blocks.antt`. A list that fits by the ranks of the open ends, and leaves none
//! open, is a graph (`proofs/graph`), which `build` makes.
//!
//! **Meaning.** `specs/Plans.antt` has the nodes of a SELECT's plan, step by step, and what they
//! answer; `select_plan` of `specs/Steps.antt` is what a query fills in. What passed at a port at
//! one moment is a `Stream`, and `specs/Roles.antt` says what each kind has given by then, and what
//! it makes where nobody closes an input. Every run of a list of nodes extends to such a whole run
//! (`completes` of `proofs/meaning/Completing.antt`), so that a limit costs no second composition.
//! `collector_gathers` of `proofs/meaning/Answers.antt` is the law, and `query-answers` of
//! `proofs/meaning/Queries.antt` ties it to the query.
//!
//! **Ends.** `specs/Ended.antt` reads the streams off the boxes and lists of one moment of a run.
//! `proofs/ends/KindLaws.antt` and the files beside it say, a kind at a time, that the processor
//! contract gives the kind's promises. `proofs/ends/LaidPlans.antt` has lists of nodes that are
//! laid down over open ends, one behind another, behind other ends and with higher ranks; a SELECT
//! is one, and so is a union of two (`proofs/ends/UnionPlans.antt`). `laid-run` of
//! `proofs/ends/LaidEnds.antt` is the law for all of them at every moment, and `laid-ended` follows
//! at the end; `planned-front` and `planned-ended` of `proofs/ends/Queries.antt` are those for the
//! plan of a typed query. A graph that grew is that of one list (`specs/Grown.antt`): the first
//! nodes, and behind them the new nodes of each growth (`grown-graph-is-that-of-one-list` of
//! `proofs/ends/GrownNodes.antt`). Lists of parts are an instance.
#![tactic(auto)]

mod builder;
mod nodes;
mod plan;

pub use builder::{DraftBuilder, build};
pub use nodes::{DraftNode, NodePort};
pub use plan::{Plan, PlanEdge, PlanNode, PlanRefusal, PlanReserve};
