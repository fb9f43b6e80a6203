ghost use Rattle.std.specs.Prelude.{◌++◌, ◌<◌, ◌↔◌, ◌≡◌, ◌⊎◌};
ghost use Rattle.proc_shell.specs.Names.{ArePortsOf, Begins, Bool, Fails, HasSpecPorts, IfErr, IfOk, IsKernelOf, IsLeftOf, IsShelled, IsTrue, IsValid, IsWorkOf, KernelState, List, Makes, None, Offers, OnOk, Reads, Some, Table, Takes, [], chunk_list, false, first_stage, growth_in, kind_of, true, work_of, ℕ, row_of};
ghost use Rattle.query_model.specs.declared.processor_spec.Kind as the_kind;

use chunk_data::{Chunk, Memory};
use port_word::PortView;
use proc_api::WorkFault;
use query_model::processor_spec::{Kind, Spec};
use std::alloc::Global;

/// What a kernel offers where its shell holds no chunk.
#[derive(Clone, Copy, PartialEq, Eq)]
pub enum Offer {
    /// Rows can be made.
    Rows,
    /// Its file isn't fetched whole.
    Fetch,
    /// A record of its file is left, which is a row or bad, or its list is bad.
    Record,
    /// Its graph is to grow.
    Grow,
    /// It has read enough, and nothing is left to be made.
    Enough,
    /// It wants a chunk of the inputs that `wants` names. Where each of these is finished, all are,
    /// and it is done.
    Wants,
}

/// What a kind of processor does with its chunks. It sees the ports' flags, and its shell does all
/// at them.
pub trait Kernel: Drop {
    ghost kind_is: { the_kind.Kind };

    ghost state: { Self → KernelState };

    ghost open_to: { Self → ℕ → Bool };

    ghost makes: { Bool } = { true };

    fn kind() -> Kind
        ensures { result ≡ kind_is };

    /// A kernel that has made nothing.
    fn begin(alloc: Global, spec: Spec) -> Result<Self, Memory>
        requires { kind_of spec ≡ kind_is }
        ensures begins { IfOk result (λ k. Begins spec (state k).spec (state k).own) }
        ensures stage { IfOk result (λ k. (state k).stage ≡ first_stage) };

    /// Whether so many ports are those of its spec and growth.
    fn fits(&self, inputs: usize, outputs: usize) -> bool
        ensures { IsTrue result ↔ ArePortsOf (Some (state self.now).spec)
            (growth_in (state self.now).spec (state self.now).stage) inputs outputs };

    /// What comes next, where nothing is held and there is room at an output. It takes no memory.
    fn offer(&mut self, view: &PortView) -> Offer
        requires { HasSpecPorts (state self.old) view.now }
        ensures same { IsKernelOf (state self.old) (state self.new) }
        ensures reads { Reads (state self.new) result }
        ensures offers { Offers (open_to self.new) (state self.old).spec view.now
            (state self.old).own (state self.new).own result };

    /// Whether it wants a chunk of the input.
    fn wants(&self, input: usize) -> bool
        ensures { result ≡ open_to self.now input };

    /// Works a chunk of an input from which one was wanted, and hands out what can be pushed now.
    fn take(&mut self, alloc: Global, input: usize, chunk: Chunk) -> Result<Option<Chunk>, Memory>
        requires { input < 32 }
        ensures same { IsKernelOf (state self.old) (state self.new) }
        ensures none { IfOk result (λ o. makes ≡ false → o ≡ None) }
        ensures takes { open_to self.old input ≡ true → IfOk result
            (Takes (state self.old).spec (state self.old).own input chunk (state self.new).own) };

    /// Makes a chunk of rows that can be made.
    fn make(&mut self, alloc: Global) -> Result<Option<Chunk>, WorkFault>
        ensures same { OnOk result (IsKernelOf (state self.old) (state self.new)) }
        ensures left { IsLeftOf (state self.old) (state self.new) }
        ensures makes { IfOk result
            (Makes (state self.old).spec (state self.old).own (state self.new).own) }
        ensures none { IfOk result (λ o. makes ≡ false → o ≡ None) }
        ensures valid { IfOk result (IsValid (state self.old)) }
        ensures fails { IfErr result (Fails (state self.old)) };

    /// Hands out the chunks that it gathered, and behind them the one that isn't worked yet. Only a
    /// collector is asked.
    fn hand_out(&mut self, alloc: Global, last: Option<Chunk>) -> Vec<Chunk>
        requires { (state self.old).stage.handed_out ≡ false }
        ensures kind { (state self.new).kind ≡ (state self.old).kind }
        ensures spec { (state self.new).spec ≡ (state self.old).spec }
        ensures out { (row_of kind_is).hands_out ≡ true
            → (state self.new).stage.handed_out ≡ true }
        ensures rows { (row_of kind_is).hands_out ≡ true
            → result.items ≡ (state self.old).own.gathered ++ chunk_list last };

    ghost of_kind: { (k : Self) → ((state k).kind ≡ kind_is) × (kind_of (state k).spec ≡ kind_is) };

    ghost shelled: { (k : Self) → IsShelled (state k).spec };

    ghost uses: { (k : Self) (i : ℕ) (unworked made : List Table)
        → ((i ≡ 0) × (unworked ≡ [])) ⊎ (open_to k i ≡ true) → (makes ≡ false → made ≡ [])
        → IsWorkOf (Some (state k).spec) (work_of (state k) i unworked made) };
}
