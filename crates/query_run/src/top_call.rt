ghost use Rattle.std.specs.Prelude.{map, string_bytes};
ghost use Rattle.std.specs.List.{All};
ghost use Rattle.query_run.specs.Names.{CountIncreased, IsBlank, EndsFor, IsRun};

use crate::answer::make_text;
use crate::ending::Ending;
use outside_io::{Sink, WriteFault, write_all};
use proc_api::Rack;
use std::sync::Wait;
use std::thread::Threads;

/// Runs the command that the words mean, which are those after the program's name, by boxes of the
/// rack.
///
/// The answer's text goes to `out`, whole and in one piece after the last step that can fail for
/// another cause; a line that tells of any other end goes to `err`. The answer is the exit status:
/// 0 answered, 1 usage, 2 refused, 3 bad data, 4 a read fault or a reader that stalled, 5 a write
/// fault, 6 a limit, 7 out of memory. The files are read by the readers of the rack's sources.
pub fn run<R: AllocGlobal + Threads + Wait + Sync, O: Sink, E: Sink>(
    rt: &R,
    words: &[String],
    rack: &mut Rack,
    out: &mut O,
    err: &mut E,
) -> u8
    requires blank { All IsBlank (map (λ b. seen (b.vtable, b.value)) rack.old.boxes.items) }

    // All that is proved of a run: how it ended, the headline, and what else follows.
    ensures { IsRun (map string_bytes words.now)
        (map (λ b. seen (b.vtable, b.value)) rack.old.boxes.items)
        (map (λ b. seen (b.vtable, b.value)) rack.new.boxes.items) result
        (O.written out.old) (O.written out.new)
        (CountIncreased (O.faults out.old) (O.faults out.new))
        (E.written err.old) (E.written err.new)
        (CountIncreased (E.faults err.old) (E.faults err.new)) }
{
    let ending = end_of(rt, words, rack, out);
    ending.tell(err);
    ending.status()
}

fn end_of<R: AllocGlobal + Threads + Wait + Sync, O: Sink>(
    rt: &R,
    words: &[String],
    rack: &mut Rack,
    out: &mut O,
) -> Ending
    requires blank { All IsBlank (map (λ b. seen (b.vtable, b.value)) rack.old.boxes.items) }
    ensures ends { EndsFor result (map string_bytes words.now)
        (map (λ b. seen (b.vtable, b.value)) rack.old.boxes.items)
        (map (λ b. seen (b.vtable, b.value)) rack.new.boxes.items)
        (O.written out.old) (O.written out.new)
        (CountIncreased (O.faults out.old) (O.faults out.new)) }
    ensures blank { All IsBlank (map (λ b. seen (b.vtable, b.value)) rack.new.boxes.items) }
{
    match make_text(rt, words, rack) {
        Ok(text) => match write_all(out, text.as_slice()) {
            Ok(()) => Ending::Answered,
            Err(WriteFault) => Ending::WriteFailed,
        },
        Err(failure) => Ending::Failed(failure),
    }
}
