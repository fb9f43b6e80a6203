//! Workers: their seats, and what they see and do of the whole run.
ghost use Rattle.std.specs.Prelude.{◌≡◌, ◌+◌, ◌<◌, [], Some};
ghost use Rattle.core_laws.specs.Steps.{seen as tells_seen, nothing};
ghost use Rattle.core_laws.specs.declared.types.Step.TheVariants as step;
ghost use Rattle.exec_table.specs.Rule.{no_view};
ghost use Rattle.exec_table.specs.Seats.{IsRootOf, IsWorkerOf, WorkerDoes, identity_of, seen_in_word, seen_of, sizes_in};

use crate::plays::{AtFirst, MakeWorker};
use crate::rule::{ExecTable, RootSeat, WorkerSeat};
use crate::types::Seen;

const STOPPED: u64 = 1 << 63;

fn seen(word: u64) -> Seen
    ensures { seen_of result ≡ seen_in_word word }
{
    if word >= STOPPED {
        Seen::Stopped
    } else if word == 0 {
        Seen::Zero
    } else {
        Seen::Pending(word)
    }
}

impl ExecTable {
    /// The seat of the next worker.
    pub fn worker(&self, root: &mut RootSeat) -> WorkerSeat
        requires root { IsRootOf (identity_of self.now) root.old }
        requires spare { root.old.seat.me.0.made < (sizes_in self.now).workers }
        ensures root { IsRootOf (identity_of self.now) root.new }
        ensures made { root.new.seat.me.0.made ≡ root.old.seat.me.0.made + 1 }
        ensures worker { IsWorkerOf (identity_of self.now) result }
        ensures number { result.seat.me.0.worker ≡ Some root.old.seat.me.0.made }
    {
        WorkerSeat {
            seat: self.table.shared.split_seat::<MakeWorker>(&mut root.seat),
        }
    }

    /// Ends the run: every worker sees it from now on.
    pub fn stop(&self, seat: &mut WorkerSeat)
        requires { IsWorkerOf (identity_of self.now) seat.old }
        ensures worker { IsWorkerOf (identity_of self.now) seat.new }
        ensures number { seat.new.seat.me.0.worker ≡ seat.old.seat.me.0.worker }
        ensures told { WorkerDoes (identity_of self.now) seat.new step.Stop nothing }
    {
        let shared = &self.table.shared;
        shared.fetch_or::<AtFirst>(&mut seat.seat, 0, STOPPED);
    }

    /// Whether something is pending, and whether the run was stopped.
    pub fn see(&self, seat: &mut WorkerSeat) -> Seen
        requires { IsWorkerOf (identity_of self.now) seat.old }
        ensures worker { IsWorkerOf (identity_of self.now) seat.new }
        ensures number { seat.new.seat.me.0.worker ≡ seat.old.seat.me.0.worker }
        ensures told { WorkerDoes (identity_of self.now) seat.new step.See
            (tells_seen (seen_of result)) }
    {
        seen(self.table.shared.load::<AtFirst>(&mut seat.seat, 0))
    }
}
