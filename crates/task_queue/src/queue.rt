//! A queue of numbers whose passes count what goes in and out.
ghost use Rattle.std.specs.Prelude.{◌≡◌, ◌<◌, ◌++◌, [], ◌∷◌, IfOk, MatchOption, MatchResult};
ghost use Rattle.task_queue.specs.Queues.{put_by, taken_through, capacity_of, IsPassOf, IsNewPassOf, IsSamePass, WasAt};

use crate::bell::Bell;
use crossbeam_queue::protocol::{Lesson, Outcome, Protocol, Split};
use crossbeam_queue::{Pass, RuledArrayQueue};
use std::alloc::{AllocError, Global};
use std::collections::LinkedList;
use std::sync::Wait;

/// What went through a pass, in order. No value of it is made.
pub struct Passage {
    pub put: LinkedList<u32>,
    pub taken: LinkedList<u32>,
}

/// The rule of the queue: what was put was taken or is left, each number as often.
pub struct Balance;

impl Protocol<u32, Passage> for Balance {
    ghost use Rattle.task_queue.specs.Passages.{IsBalanced, empty_passage};

    ghost holds = { IsBalanced };

    ghost first = { empty_passage };
}

struct NewPass;

impl Split<Passage> for NewPass {
    ghost use Rattle.task_queue.specs.Passages.{empty_passage};

    ghost left = { λ v. v };

    ghost right = { λ v. empty_passage };
}

struct PutNumber;

impl Outcome<u32, Passage> for PutNumber {
    ghost use Rattle.task_queue.specs.Passages.{with_put};

    ghost then = { λ v n w. w ≡ with_put n v };
}

impl Lesson<u32, Passage> for PutNumber {
    ghost use Rattle.task_queue.specs.Passages.{IsMoment};

    ghost fact = { IsMoment };
}

struct TakeNumber;

impl Outcome<u32, Passage> for TakeNumber {
    ghost use Rattle.task_queue.specs.Passages.{with_taken};

    ghost then = { λ v n w. w ≡ with_taken n v };
}

impl Lesson<u32, Passage> for TakeNumber {
    ghost use Rattle.task_queue.specs.Passages.{IsMoment};

    ghost fact = { IsMoment };
}

/// A queue of numbers with room for a fixed count of them, oldest first, and the bell of those who
/// sleep until there is one.
#[derive(Drop)]
pub struct TaskQueue {
    pub queue: RuledArrayQueue<u32, Passage, Balance>,
    pub bell: Bell,
}

/// The right to put numbers into a queue and to take them out, one thread at a time.
#[derive(Drop)]
pub struct QueuePass {
    pub pass: Pass<u32, Passage>,
}

impl TaskQueue {
    /// An empty queue and its first pass.
    pub fn make(alloc: Global, capacity: usize) -> Result<(TaskQueue, QueuePass), AllocError>
        requires { 0 < capacity }
        ensures capacity { IfOk result (λ made. capacity_of made.0 ≡ capacity) }
        ensures pass { IfOk result (λ made. IsNewPassOf made.0 made.1) }
    {
        let (queue, pass) = RuledArrayQueue::ruled(alloc, capacity)?;
        let bell = Bell::new();
        Ok((TaskQueue { queue, bell }, QueuePass { pass }))
    }

    /// A further pass. It takes no memory.
    pub fn pass(&self, from: &mut QueuePass) -> QueuePass
        requires { IsPassOf self.now from.old }
        ensures same { IsSamePass from.old from.new }
        ensures put { put_by from.new ≡ put_by from.old }
        ensures taken { taken_through from.new ≡ taken_through from.old }
        ensures new { IsNewPassOf self.now result }
    {
        QueuePass {
            pass: self.queue.another::<NewPass>(&mut from.pass),
        }
    }

    /// Puts a number at the back. It comes back only where the queue was full at a moment of the
    /// call.
    pub fn put<R: Wait>(&self, rt: &R, pass: &mut QueuePass, n: u32) -> Result<(), u32>
        requires { IsPassOf self.now pass.old }
        ensures same { IsSamePass pass.old pass.new }
        ensures taken { taken_through pass.new ≡ taken_through pass.old }
        ensures put { MatchResult result
            (λ _. put_by pass.new ≡ put_by pass.old ++ n ∷ [])
            (λ back. (back ≡ n) × (put_by pass.new ≡ put_by pass.old)
            × WasAt (capacity_of self.now) pass.old) }
    {
        self.queue.push_as::<PutNumber, R>(rt, &mut pass.pass, n)
    }

    /// Takes the number at the front. None comes only where the queue was empty at a moment of the
    /// call.
    pub fn take<R: Wait>(&self, rt: &R, pass: &mut QueuePass) -> Option<u32>
        requires { IsPassOf self.now pass.old }
        ensures same { IsSamePass pass.old pass.new }
        ensures put { put_by pass.new ≡ put_by pass.old }
        ensures taken { MatchOption result
            ((taken_through pass.new ≡ taken_through pass.old) × WasAt 0 pass.old)
            (λ n. taken_through pass.new ≡ taken_through pass.old ++ n ∷ []) }
    {
        self.queue.pop_as::<TakeNumber, R>(rt, &mut pass.pass)
    }
}
