ghost use Rattle.std.specs.Prelude.{◌<◌, ◌≡◌};
ghost use Rattle.proc_api.specs.Names.{ChangedByCalls, FinishesFront, IsShut, SameChunks, in_count, out_count, true, ℕ};

use port_word::PortView;

/// Closes each input and finishes each output, as a processor does over a view that hasn't its
/// ports.
pub fn shut_down(view: &mut PortView)
    ensures changed { ChangedByCalls view.old view.new }
    ensures shut { IsShut view.new }
    ensures chunks { SameChunks view.old view.new }
{
    for i in 0..view.inputs() {
        view.close(i);
    }
    finish_all(view);
}

/// Finishes each output.
pub fn finish_all(view: &mut PortView)
    ensures { FinishesFront (out_count view.old) view.old view.new }
{
    for o in 0..view.outputs() {
        view.finish(o);
    }
}
