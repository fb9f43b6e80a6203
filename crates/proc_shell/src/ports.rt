ghost use Rattle.std.specs.Prelude.{◌<◌, ◌≡◌, ◌≤◌, ◌⊎◌};
ghost use Rattle.proc_shell.specs.Names.{AllOutputsFinished, AreWantedEmpty, AreWantedOver, ChangesInput, ChangesInputs, HasNoRoom, HasOpen, IfSome, IsFreeOutput, IsOutOfRoom, IsTrue, IsWanted, IsWantedFull, MayMake, None, Some, asked, false, in_count, out_count, shut_open, true, unasked, ℕ};

use crate::kernel::Kernel;
use port_word::PortView;

/// Whether there is an output, and each was finished, by either end.
pub(crate) fn is_over(view: &PortView) -> bool
    ensures over { IsTrue result → (0 < out_count view.now) × AllOutputsFinished view.now }
    ensures open { result ≡ false → (out_count view.now ≡ 0) ⊎ HasOpen view.now }
{
    for o in 0..view.outputs() {
        if !view.out_finished(o) {
            return false;
        }
    }
    view.outputs() > 0
}

/// The first output that can take a chunk.
pub(crate) fn free_output(view: &PortView) -> Option<usize>
    ensures free { IfSome result (λ o. IsFreeOutput view.now o) }
    ensures none { result ≡ None → HasNoRoom view.now }
{
    for o in 0..view.outputs() {
        if view.can_push(o) && !view.out_finished(o) {
            return Some(o);
        }
    }
    None
}

/// Whether there is room for what is made, or no output.
pub(crate) fn may_make(view: &PortView) -> bool
    ensures may { IsTrue result → MayMake view.now }
    ensures full { result ≡ false → IsOutOfRoom view.now }
{
    view.outputs() == 0 || free_output(view).is_some()
}

/// The first wanted input with a chunk.
pub(crate) fn full_input<K: Kernel>(kernel: &K, view: &PortView) -> Option<usize>
    ensures full { IfSome result (λ i. IsWantedFull (K.open_to kernel.now) view.now i) }
    ensures none { result ≡ None → AreWantedEmpty (K.open_to kernel.now) view.now }
    ensures few { in_count view.now ≤ 32 }
{
    for i in 0..view.inputs() {
        if kernel.wants(i) && view.has_data(i) {
            return Some(i);
        }
    }
    None
}

/// The first wanted input that isn't finished.
pub(crate) fn open_input<K: Kernel>(kernel: &K, view: &PortView) -> Option<usize>
    ensures wanted { IfSome result (λ i. IsWanted (K.open_to kernel.now) view.now i) }
    ensures none { result ≡ None → AreWantedOver (K.open_to kernel.now) view.now }
{
    for i in 0..view.inputs() {
        if kernel.wants(i) && !view.in_finished(i) {
            return Some(i);
        }
    }
    None
}

// Asks for data at a wanted input.
fn ask_wanted<K: Kernel>(kernel: &K, view: &mut PortView, i: usize)
    requires { i < in_count view.old }
    ensures { ChangesInput (asked (K.open_to kernel.now)) i view.old view.new }
{
    if kernel.wants(i) {
        view.set_needed(i);
    }
}

/// Asks for data at each wanted input.
pub(crate) fn ask_each<K: Kernel>(kernel: &K, view: &mut PortView)
    ensures { ChangesInputs (asked (K.open_to kernel.now)) (in_count view.old) view.old view.new }
{
    for i in 0..view.inputs() {
        ask_wanted(kernel, view, i);
    }
}

/// Takes the asking back at each input.
pub(crate) fn ask_none(view: &mut PortView)
    ensures { ChangesInputs unasked (in_count view.old) view.old view.new }
{
    for i in 0..view.inputs() {
        view.set_not_needed(i);
    }
}

// Closes an input that isn't finished.
fn close_open(view: &mut PortView, i: usize)
    requires { i < in_count view.old }
    ensures { ChangesInput shut_open i view.old view.new }
{
    if !view.in_finished(i) {
        view.close(i);
    }
}

/// Closes each input that isn't finished.
pub(crate) fn close_each(view: &mut PortView)
    ensures { ChangesInputs shut_open (in_count view.old) view.old view.new }
{
    for i in 0..view.inputs() {
        close_open(view, i);
    }
}
