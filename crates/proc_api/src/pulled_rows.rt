ghost use Rattle.std.specs.Prelude.{◌+◌, ◌≡◌, ◌≤◌};
ghost use Rattle.proc_api.specs.Names.{raised};

use std::marker::Model;

/// The count of the rows that a processor pulled, over all its loads. At its last value it stands
/// still.
#[derive(Drop)]
pub struct PulledRows {
    total: u64,
    at_load: u64,
}

impl Model for PulledRows {
    ghost use Rattle.std.specs.Prelude.{◌-◌, ◌≤◌};
    ghost use Rattle.proc_api.specs.Names.{RowCount};

    ghost Value = { RowCount };

    ghost view = { λ c. record { total = c.total; since = c.total - c.at_load } };

    ghost invariant = { λ c. c.at_load ≤ c.total };
}

impl PulledRows {
    /// The count of a new processor.
    pub fn new() -> PulledRows
        ensures { result ≡ record { total = 0; since = 0 } }
    {
        PulledRows {
            total: 0,
            at_load: 0,
        }
    }

    /// Begins to count from here what was pulled since `load`.
    pub fn begin(&mut self)
        ensures { self.new ≡ record { total = self.old.total; since = 0 } }
    {
        self.at_load = self.total;
    }

    /// Adds the rows of a chunk that was pulled.
    pub fn add(&mut self, rows: usize)
        ensures total { self.new.total ≡ raised self.old.total rows }
        ensures grows { self.old.total ≤ self.new.total }
        ensures since { self.new.total + self.old.since ≡ self.old.total + self.new.since }
    {
        self.total = self.total.saturating_add(rows as u64);
    }
}
