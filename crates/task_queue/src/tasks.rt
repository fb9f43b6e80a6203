//! What a worker has of a queue: its pass, and the numbers that are its own.
ghost use Rattle.std.specs.Prelude.{◌≡◌, ◌==◌, ◌&&◌, ℕ, ◌<◌, false, not, IfNone, IfSome, None, Some, slice_index_or};
ghost use Rattle.task_queue.specs.Queues.{IsPassOf};

use crate::queue::{QueuePass, TaskQueue};
use std::sync::Wait;

/// How many numbers a worker can keep, counted from 0.
const MOST_KEPT: u32 = 256;

/// The pass of a worker, and the numbers that it keeps and takes first: those that a full queue
/// gave back, so that no worker waits for room in the queue, and the one that it is to go on with.
#[derive(Drop)]
pub struct WorkerTasks {
    pub pass: QueuePass,
    pub kept: [bool; 256],
    // Whether a number may be kept, and where it is one alone, which: mostly none or one is, and
    // the places aren't looked through.
    pub any: bool,
    pub only: Option<u32>,
    ghost bare: { any ≡ false → (n : ℕ) → slice_index_or kept n false ≡ false },
    ghost alone: { (k : ℕ) → only ≡ Some k → (n : ℕ) → (k == n) ≡ false
        → slice_index_or kept n false ≡ false },
}

impl WorkerTasks {
    ghost use Rattle.task_queue.specs.Tasks.{GivesTask, IsOffered, IsOfferedNext, KeepsNone, KeepsNumber, LetsGo, SharesNumber, keeps};

    /// A worker's pass, with no number that is kept.
    pub fn new(pass: QueuePass) -> WorkerTasks
        ensures pass { result.pass ≡ pass }
        ensures bare { KeepsNone result }
    {
        WorkerTasks {
            pass,
            kept: [false; 256],
            any: false,
            only: None,
        }
    }

    fn keep(&mut self, n: u32)
        requires { n < 256 }
        ensures pass { self.new.pass ≡ self.old.pass }
        ensures keeps { KeepsNumber n self.old self.new }
    {
        self.only = if self.any { None } else { Some(n) };
        self.any = true;
        self.kept[n as usize] = true;
    }

    /// Puts a number at the back of the queue, and wakes one who sleeps for want of a number. Where
    /// the queue is full the number stays with the worker: this waits for no room.
    pub fn offer<R: Wait>(&mut self, rt: &R, queue: &TaskQueue, n: u32)
        requires pass { IsPassOf queue.now self.old.pass }
        requires few { n < 256 }
        ensures pass { IsPassOf queue.now self.new.pass }
        ensures offered { IsOffered queue.now n self.old self.new }
    {
        self.offer_again(rt, queue, n);
        queue.bell.ring();
    }

    /// The same for a number that its worker has just had: nobody is woken for it.
    pub fn offer_again<R: Wait>(&mut self, rt: &R, queue: &TaskQueue, n: u32)
        requires pass { IsPassOf queue.now self.old.pass }
        requires few { n < 256 }
        ensures pass { IsPassOf queue.now self.new.pass }
        ensures offered { IsOffered queue.now n self.old self.new }
    {
        match queue.put(rt, &mut self.pass, n) {
            Ok(()) => {}
            Err(_) => self.keep(n),
        }
    }

    /// The same for a number with which this worker is to go on: it stays with it where none does,
    /// and nobody is woken for it.
    pub fn offer_next<R: Wait>(&mut self, rt: &R, queue: &TaskQueue, n: u32)
        requires pass { IsPassOf queue.now self.old.pass }
        requires few { n < 256 }
        ensures pass { IsPassOf queue.now self.new.pass }
        ensures offered { IsOfferedNext queue.now n self.old self.new }
    {
        if self.any {
            self.offer(rt, queue, n);
        } else {
            self.keep(n);
        }
    }

    /// Puts a number with which this worker was to go on into the queue, where others find it, and
    /// wakes one who sleeps: the worker has work of its own first.
    pub fn share_next<R: Wait>(&mut self, rt: &R, queue: &TaskQueue)
        requires pass { IsPassOf queue.now self.old.pass }
        ensures pass { IsPassOf queue.now self.new.pass }
        ensures shares { SharesNumber self.old self.new }
    {
        match self.only {
            Some(n) if n < MOST_KEPT => self.share_only(rt, queue, n),
            _ => {}
        }
    }

    fn share_only<R: Wait>(&mut self, rt: &R, queue: &TaskQueue, n: u32)
        requires pass { IsPassOf queue.now self.old.pass }
        requires only { self.old.only ≡ Some n }
        requires few { n < 256 }
        ensures pass { IsPassOf queue.now self.new.pass }
        ensures shares { SharesNumber self.old self.new }
    {
        if !self.kept[n as usize] {
            return;
        }
        match queue.put(rt, &mut self.pass, n) {
            Ok(()) => {
                self.let_go(n);
                queue.bell.ring();
            }
            Err(_) => {}
        }
    }

    // The number that is kept alone, if it is, is kept no more.
    fn let_go(&mut self, n: u32)
        requires only { self.old.only ≡ Some n }
        requires few { n < 256 }
        ensures pass { self.new.pass ≡ self.old.pass }
        ensures none { KeepsNone self.new }
        ensures left { (m : ℕ) → keeps self.new m ≡ not (n == m) && keeps self.old m }
    {
        self.any = false;
        self.only = None;
        self.kept[n as usize] = false;
    }

    // The number that is kept alone, if it is.
    fn take_only(&mut self, n: u32) -> Option<u32>
        requires only { self.old.only ≡ Some n }
        requires few { n < 256 }
        ensures pass { self.new.pass ≡ self.old.pass }
        ensures some { IfSome result (λ n. LetsGo n self.old self.new) }
        ensures none { IfNone result (KeepsNone self.old × KeepsNone self.new) }
    {
        let is_kept = self.kept[n as usize];
        self.let_go(n);
        if is_kept { Some(n) } else { None }
    }

    // The first number that is kept.
    fn next_kept(&mut self) -> Option<u32>
        ensures pass { self.new.pass ≡ self.old.pass }
        ensures some { IfSome result (λ n. LetsGo n self.old self.new) }
        ensures none { IfNone result (KeepsNone self.old × KeepsNone self.new) }
    {
        if !self.any {
            return None;
        }
        match self.only {
            Some(n) if n < MOST_KEPT => self.take_only(n),
            _ => self.first_kept(),
        }
    }

    // The first of the numbers that are kept.
    fn first_kept(&mut self) -> Option<u32>
        ensures pass { self.new.pass ≡ self.old.pass }
        ensures some { IfSome result (λ n. LetsGo n self.old self.new) }
        ensures none { IfNone result (KeepsNone self.old × KeepsNone self.new) }
    {
        for n in 0..MOST_KEPT {
            if self.kept[n as usize] {
                self.kept[n as usize] = false;
                return Some(n);
            }
        }
        self.any = false;
        self.only = None;
        None
    }

    /// A number that is kept, else the one at the front of the queue. None comes only where the
    /// queue was empty at a moment of the call.
    pub fn next<R: Wait>(&mut self, rt: &R, queue: &TaskQueue) -> Option<u32>
        requires { IsPassOf queue.now self.old.pass }
        ensures pass { IsPassOf queue.now self.new.pass }
        ensures next { GivesTask result self.old self.new }
    {
        match self.next_kept() {
            Some(n) => Some(n),
            None => queue.take(rt, &mut self.pass),
        }
    }
}
