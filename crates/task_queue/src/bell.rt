//! Where workers that find no number sleep until another offers one.
use std::sync::Wait;
use std::sync::atomic::{AtomicU64, Ordering};
use std::time::Duration;

/// The longest sleep, in milliseconds. Who is woken or wakes by itself looks again, so that no run
/// rests on a ring.
const LONGEST_SLEEP: u64 = 4;

/// The longest nap, in microseconds.
const LONGEST_NAP: u64 = 3_000;

/// How many counts a sleep can tell from each other.
const COUNTS: u64 = 4_294_967_296;

/// A bell counts how often it was rung, and who is about to sleep by it or sleeps.
///
/// Who finds nothing to do lies down, reads the count, looks for the last time, and sleeps only
/// while the count is what it read. The one who rings looks first whether anyone lies: either it
/// sees that one and counts the ring, or the last look comes after what there is to find.
#[derive(Drop)]
pub struct Bell {
    rung: AtomicU64,
    lying: AtomicU64,
}

impl Bell {
    pub(crate) fn new() -> Bell {
        Bell {
            rung: AtomicU64::new(0),
            lying: AtomicU64::new(0),
        }
    }

    /// How often the bell was rung for one who lay, modulo 2^32: to be read before the last look.
    pub fn count(&self) -> u32 {
        (self.rung.load(Ordering::SeqCst) % COUNTS) as u32
    }

    /// Wakes one of those who sleep, if anyone lies.
    pub fn ring(&self) {
        if self.lying.load(Ordering::SeqCst) != 0 {
            self.rung.fetch_add(1, Ordering::SeqCst);
            self.rung.wake_one();
        }
    }

    /// Wakes all who sleep, where all are to look again.
    pub fn ring_for_all(&self) {
        self.rung.fetch_add(1, Ordering::SeqCst);
        self.rung.wake_all();
    }

    /// Is to be woken from now on.
    pub fn lie_down(&self) {
        self.lying.fetch_add(1, Ordering::SeqCst);
    }

    pub fn get_up(&self) {
        self.lying.fetch_sub(1, Ordering::SeqCst);
    }

    /// Sleeps, who lies, until the bell rings, if it wasn't rung since its count was read.
    pub fn sleep<R: Wait>(&self, rt: &R, count: u32) {
        self.rung
            .park_timeout(rt, count, Duration::from_millis(LONGEST_SLEEP));
    }

    /// Sleeps for so many microseconds, or the longest nap, where there is nothing to do but to
    /// look at devices once more.
    pub fn nap<R: Wait>(&self, rt: &R, micros: u32) {
        let nap = Duration::from_micros(LONGEST_NAP.min(micros as u64));
        self.lie_down();
        self.rung.park_timeout(rt, self.count(), nap);
        self.get_up();
    }
}
