//! Lists of events.
ghost use Rattle.std.specs.Prelude.{◌≡◌, IfOk, IfErr, Some, true};
ghost use Rattle.core_laws.specs.Laws.{Laws};
ghost use Rattle.core_laws.specs.Steps.{may, after};
ghost use Rattle.exec_core.specs.Runs.{EndsRight, run};

use crate::conditions::is_step;
use crate::lookups::{names, node, port};
use crate::node_steps::{birth, count, learn, leave, mark, rest, spent, take, wiring};
use crate::port_steps::{act_on, look};
use chunk_data::Memory;
use core_laws::{Act, CoreState, Event, Step};
use std::alloc::Global;

#[derive(Clone, Copy, PartialEq, Eq, Drop)]
pub enum ReplayEnd {
    /// The event at this place, counted from 0, is no step.
    BadEvent(u64),
    Memory,
}

/// The state after the event, which is a step.
fn step_after(alloc: Global, core: CoreState, event: Event) -> Result<CoreState, Memory>
    requires is_step { may core event.seat event.step ≡ true }
    requires laws { Laws core }
    ensures { IfOk result (λ c. c ≡ after core event.seat event.step) }
{
    let n = event.seat;
    match event.step {
        Step::Look(e) => Ok(look(alloc, core, n, e)),
        Step::Want(e) => act_on(alloc, Act::Want, core, n, e),
        Step::Unwant(e) => act_on(alloc, Act::Unwant, core, n, e),
        Step::Push(e, x) => act_on(alloc, Act::Push(x), core, n, e),
        Step::Pull(e) => act_on(alloc, Act::Pull, core, n, e),
        Step::Finish(e) => act_on(alloc, Act::Finish, core, n, e),
        Step::ClosePort(e) => act_on(alloc, Act::Close, core, n, e),
        Step::Mark(e) => Ok(mark(alloc, core, n, e)),
        Step::Begin => {
            let spends = spent(node(&core, n).word);
            take(alloc, core, n, spends)
        }
        Step::Again => take(alloc, core, n, 0),
        Step::Rest => Ok(rest(alloc, core, n)),
        Step::Over => Ok(leave(alloc, core, n, 1 << 63)),
        Step::TokenIn => {
            let (tokens, pending) = (node(&core, n).tokens + 1, core.pending + 1);
            Ok(count(alloc, core, n, tokens, pending))
        }
        Step::TokenOut => {
            let (tokens, pending) = (node(&core, n).tokens - 1, core.pending - 1);
            Ok(count(alloc, core, n, tokens, pending))
        }
        Step::Wire(e, w) => {
            match port(&core, e).wire {
                None => learn(alloc, wiring(alloc, core, e, w), n, e),
                Some(_) => Ok(core),
            }
        }
        Step::Wired(e) => {
            if names(n, port(&core, e).wire) {
                learn(alloc, core, n, e)
            } else {
                Ok(core)
            }
        }
        Step::Birth => Ok(birth(alloc, core, n)),
        Step::Stop => {
            let stopped = true;
            Ok(CoreState { stopped, ..core })
        }
        Step::See => Ok(core),
    }
}

/// The state after the events, each of which is to be a step of the core from the state before it.
/// The state is taken whole, and dropped after an `Err`.
pub fn replay(alloc: Global, start: CoreState, events: &[Event]) -> Result<CoreState, ReplayEnd>
    requires { Laws start }
    ensures ok { IfOk result (λ c. run start events.now ≡ Some c) }
    ensures laws { IfOk result (λ c. Laws c) }
    ensures bad { IfErr result (λ e. EndsRight start events.now e) }
{
    let mut core = start;
    for k in 0..events.len() {
        let event = events[k];
        if !is_step(&core, event) {
            return Err(ReplayEnd::BadEvent(k as u64));
        }
        core = match step_after(alloc, core, event) {
            Ok(next) => next,
            Err(_) => return Err(ReplayEnd::Memory),
        };
    }
    Ok(core)
}
