ghost use Rattle.std.specs.Prelude.{◌≡◌, ℕ, List as Seq};
ghost use Rattle.outside_io.specs.Counts.{one_more};
ghost use Rattle.outside_io.specs.Scripts.{next_fake, IsRising};

use crate::entries::{Fake, FakeKind};
use chunk_data::List;
use std::marker::Model;

/// A script and how many calls were made; it is seen as the pair of both.
#[derive(Drop)]
pub(crate) struct Script {
    fakes: List<Fake>,
    next: usize,
    calls: u64,
}

impl Model for Script {
    ghost use Rattle.std.specs.Prelude.{ℕ, List as Seq};
    ghost use Rattle.outside_io.specs.declared.entries.Fake.{Fake};
    ghost use Rattle.outside_io.specs.Scripts.{IsPlacedAt};

    ghost Value = { Seq Fake × ℕ };

    ghost view = { λ s. (s.fakes, s.calls) };

    ghost invariant = { λ s. IsPlacedAt s.fakes s.next s.calls };
}

impl Script {
    pub(crate) fn new(fakes: List<Fake>) -> Self
        requires { IsRising fakes }
        ensures { result ≡ (fakes, 0) }
    {
        let next = match fakes.as_slice().first() {
            Some(fake) if fake.call == 0 => 1,
            _ => 0,
        };
        Script {
            fakes,
            next,
            calls: 0,
        }
    }

    /// Counts a call, and gives the fake that it meets.
    pub(crate) fn next_call(&mut self) -> Option<FakeKind>
        ensures fake { result ≡ next_fake self.old.0 self.old.1 }
        ensures counted { self.new ≡ (self.old.0, one_more self.old.1) }
    {
        if self.calls == u64::MAX {
            return None;
        }
        self.calls += 1;
        if self.next == self.fakes.len() {
            return None;
        }
        let fake = *self.fakes.get(self.next);
        if fake.call != self.calls {
            return None;
        }
        self.next += 1;
        Some(fake.kind)
    }
}
