// Views of ports, called by scripts.
ghost use Rattle.std.specs.Prelude.{◌≡◌, ◌<◌, [], OnOk};
ghost use Rattle.port_word.specs.Names.{in_count, out_count};

use crate::driven::{chunk_of, halves, need, supply};
use port_word::{Action, PortView};
use std::alloc::Global;
use std::process::Abort;
use std::test::Fail;

// Takes all actions, and shows a letter and the port of each.
fn show_actions(view: &mut PortView, text: &mut String) -> Result<(), Fail>
    ensures { OnOk result (view.new.actions ≡ []) }
{
    for _turn in 0..99 {
        let (name, port) = match view.next_action() {
            Some(Action::Want(i)) => ('w', i),
            Some(Action::Unwant(i)) => ('u', i),
            Some(Action::Pull(i)) => ('p', i),
            Some(Action::Close(i)) => ('c', i),
            Some(Action::Push(o, _)) => ('g', o),
            Some(Action::Finish(o)) => ('f', o),
            None => return Ok(()),
        };
        write!(text, "{name}{port} ")?;
    }
    Err("more actions than the ports can have".into())
}

fn sign(holds: bool) -> &'static str {
    if holds { "+" } else { "-" }
}

// What a call of an input gives.
fn call_input(view: &mut PortView, name: &str, i: usize) -> &'static str
    requires { i < in_count view.old }
{
    match name {
        "pull" => return sign(view.pull(i).is_some()),
        "data" => return sign(view.has_data(i)),
        "ended" => return sign(view.in_finished(i)),
        "want" => view.set_needed(i),
        "unwant" => view.set_not_needed(i),
        _ => view.close(i),
    }
    ""
}

// What a call of an output gives; of a chunk that is handed back the number of columns.
fn call_output(
    alloc: Global,
    view: &mut PortView,
    name: &str,
    o: usize,
    text: &mut String,
) -> Result<(), Fail>
    requires { o < out_count view.old }
{
    match name {
        "room" => text.push_str(sign(view.can_push(o)))?,
        "over" => text.push_str(sign(view.out_finished(o)))?,
        "push" => match view.push(o, chunk_of(alloc, "i", "")?) {
            Ok(()) => text.push('+')?,
            Err(chunk) => write!(text, "{}", chunk.types().len())?,
        },
        _ => view.finish(o),
    }
    Ok(())
}

// What a step gives: all actions, where its word is `take`.
fn take_step(
    alloc: Global,
    view: &mut PortView,
    step: &str,
    text: &mut String,
) -> Result<(), Fail> {
    let (name, port) = halves(step, ' ');
    let n = port.parse().unwrap_or(99);
    match name {
        "take" => show_actions(view, text),
        "need" => {
            show_actions(view, text)?;
            need(view, n)
        }
        "last" => {
            show_actions(view, text)?;
            supply(view, n, Some(chunk_of(alloc, "i", "")?), true)
        }
        "grow" if view.inputs() <= 3 && view.outputs() <= 1 => Ok(view.grow(3, 1)?),
        "room" | "over" | "push" | "finish" if n < view.outputs() => {
            call_output(alloc, view, name, n, text)
        }
        _ if n < view.inputs() => Ok(text.push_str(call_input(view, name, n))?),
        _ => Err("a port is missing".into()),
    }
}

// The inputs and outputs of a view, its steps, and what they give.
static CASES: [&str; 3] = [
    "1 1/need 0;pull 0;room 0;push 0;push 0;ended 0;close 0;ended 0/-++1-+",
    // A later want takes the earlier one's place.
    "2 1/want 0;want 1;unwant 0;close 1;close 1;unwant 1;finish 0;finish 0;take/u0 w1 c1 f0 ",
    // The last chunk is pulled once, and a grown view keeps its ports.
    "1 0/want 0;take;last 0;ended 0;grow;data 0;data 2;room 0;pull 0;pull 0;ended 0;take;over 0/\
     w0 -+--+-+p0 -",
];

#[test]
fn a_view_gives_what_its_ports_tell(rt: HostRuntime) -> Result<(), Fail> {
    for case in &CASES {
        let (ports, rest) = halves(case, '/');
        let (steps, expected) = halves(rest, '/');
        let (inputs, outputs) = halves(ports, ' ');
        let (inputs, outputs) = (inputs.parse().unwrap_or(99), outputs.parse().unwrap_or(99));
        if inputs > 32 || outputs > 16 {
            return Err("too many ports".into());
        }
        let mut view = PortView::new(rt.alloc(), inputs, outputs)?;
        let mut text = String::new(rt.alloc());
        for step in steps.split(';') {
            take_step(rt.alloc(), &mut view, step, &mut text)?;
        }
        assert_eq!(rt; text.as_str(), expected, "{case}");
    }
    Ok(())
}
