//! The calls of a processor that touch no port.
ghost use Rattle.std.specs.Prelude.{◌≡◌, false, true, None, OnOk, IfOk, IfErr};
ghost use Rattle.exec_laws.specs.Names.{Acts, KeepsFault, StaysBox};
ghost use Rattle.exec_table.specs.Seats.{identity_of};
ghost use Rattle.exec_laws.specs.declared.edges.DueCall.TheVariants.{Schedule, Work};
ghost use Rattle.proc_api.specs.Names.{IsRunning, MaySchedule, MayWork};
ghost use Rattle.node_cells.specs.Stops.{stop_of};
ghost use Rattle.node_cells.specs.Turns.{AnswersWake, IsAtWork, IsCalled, IsDue, IsStopped, Stays, Wakes, WakesTo, call_after};
ghost use Rattle.node_cells.specs.declared.stop_cause.StopCause.TheVariants.{Fault};

use crate::cell::NodeCell;
use exec_laws::{DueCall, NodeStatus};
use exec_table::ExecTable;
use proc_api::{Processor, Wake, WorkFault};

/// A processor that is to work does.
pub fn work_box<P: Processor>(processor: &mut P) -> Result<(), WorkFault>
    requires running { IsRunning (P.seen processor.old) }
    requires ready { MayWork (P.seen processor.old).notes.answer }
    requires once { (P.seen processor.old).notes.acted ≡ false }
    ensures stays { StaysBox (P.seen processor.old) (P.seen processor.new) }
    ensures growth { (P.seen processor.new).growth ≡ (P.seen processor.old).growth }
    ensures ok { OnOk result (Acts (P.seen processor.old) (P.seen processor.new)) }
    ensures acted { OnOk result ((P.seen processor.new).notes.acted ≡ true) }
    ensures fault { IfErr result (λ f. KeepsFault f (P.seen processor.new)) }
{
    processor.work()
}

/// A processor that is to make a step of work with its device does.
pub fn schedule_box<P: Processor>(processor: &mut P) -> Result<Wake, WorkFault>
    requires running { IsRunning (P.seen processor.old) }
    requires fetching { MaySchedule (P.seen processor.old).notes.answer }
    ensures stays { StaysBox (P.seen processor.old) (P.seen processor.new) }
    ensures growth { (P.seen processor.new).growth ≡ (P.seen processor.old).growth }
    ensures ok { IfOk result (λ wake. Wakes wake (P.seen processor.old) (P.seen processor.new)) }
    ensures fault { IfErr result (λ f. KeepsFault f (P.seen processor.new)) }
{
    processor.schedule()
}

/// The processor works on what it has. Then it is to be prepared again. The table is what the
/// clauses speak of.
pub fn work<P: Processor>(_table: &ExecTable, cell: &mut NodeCell<P>) -> Result<(), WorkFault>
    requires { IsAtWork P.seen (identity_of _table.now) Work cell.old }
    ensures called { IsCalled (stop_of result) (P.seen cell.new.processor) }
    ensures stays { Stays P.seen (stop_of result) cell.old cell.new }
    ensures ok { OnOk result (IsDue P.seen (identity_of _table.now) cell.new) }
    ensures fault { IfErr result
        (λ f. IsStopped P.seen (identity_of _table.now) (Fault f) cell.new) }
{
    match work_box(&mut cell.processor) {
        Ok(()) => {
            cell.mark.state = NodeStatus::Due;
            Ok(())
        }
        Err(fault) => Err(fault),
    }
}

/// The call that comes after a step of work with a device.
pub fn call_after(wake: Wake) -> DueCall
    ensures { result ≡ call_after wake }
{
    match wake {
        Wake::Ready => DueCall::Work,
        Wake::Later => DueCall::Schedule,
    }
}

/// The processor makes one step of work with its device.
pub fn schedule<P: Processor>(_table: &ExecTable, cell: &mut NodeCell<P>) -> Result<Wake, WorkFault>
    requires { IsAtWork P.seen (identity_of _table.now) Schedule cell.old }
    ensures answers { AnswersWake result (P.seen cell.old.processor) (P.seen cell.new.processor) }
    ensures stays { Stays P.seen None cell.old cell.new }
    ensures ok { IfOk result (λ wake. WakesTo P.seen (identity_of _table.now) wake cell.new) }
    ensures fault { IfErr result
        (λ f. IsStopped P.seen (identity_of _table.now) (Fault f) cell.new) }
{
    match schedule_box(&mut cell.processor) {
        Ok(wake) => {
            cell.mark.state = NodeStatus::AtWork(call_after(wake));
            Ok(wake)
        }
        Err(fault) => Err(fault),
    }
}
