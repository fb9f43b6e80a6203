ghost use Rattle.std.specs.Prelude.{◌≡◌, IfOk, true};
ghost use Rattle.core_laws.specs.Start.{fits};
ghost use Rattle.core_laws.specs.Laws.{Laws};

use chunk_data::List;
use exec_core::{
    CoreState, Event, Flags, ReplayEnd, Reserve, Sizes, Start, Step, Wire, is_step, replay,
};
use std::test::Fail;

const FIRST: u64 = 1 << 60;

const HELD: u64 = 1 << 62;

const NO_FLAGS: Flags = Flags {
    needed: false,
    has_data: false,
    fin_out: false,
    fin_in: false,
};

fn wire(from: u32, out: u32, to: u32, input: u32) -> Wire
    ensures { result ≡ record { from = from; out = out; to = to; input = input } }
{
    Wire {
        from,
        out,
        to,
        input,
    }
}

fn started(rt: &HostRuntime, sizes: &Sizes) -> Result<CoreState, Fail>
    requires { fits sizes.now ≡ true }
    ensures { IfOk result (λ c. Laws c) }
{
    match CoreState::start(rt.alloc(), sizes) {
        Ok(core) => Ok(core),
        Err(e) => Err(e.into()),
    }
}

/// A producer 0 and a consumer 1, with an edge and a worker.
fn two_nodes(rt: &HostRuntime) -> Result<CoreState, Fail>
    ensures { IfOk result (λ c. Laws c) }
{
    let wires = List::from_vec(vec![in rt.alloc(); wire(0, 0, 1, 0)]?);
    let sizes = Sizes {
        nodes: 2,
        wires,
        reserves: List::new(rt.alloc()),
        workers: 1,
    };
    started(rt, &sizes)
}

/// A chunk's way over the edge: the consumer wants it, the producer pushes, rests and gives its
/// tokens back, and the consumer, which was told meanwhile, pulls.
static CHUNK_PASSES: [(u32, Step); 18] = [
    (1, Step::TokenIn),
    (1, Step::Begin),
    (1, Step::Look(0)),
    (1, Step::Want(0)),
    (1, Step::Mark(0)),
    (0, Step::TokenIn),
    (0, Step::Begin),
    (0, Step::Look(0)),
    (0, Step::Push(0, 7)),
    (0, Step::Mark(0)),
    (0, Step::Rest),
    (0, Step::TokenOut),
    (0, Step::TokenOut),
    (2, Step::See),
    (1, Step::Rest),
    (1, Step::Again),
    (1, Step::Look(0)),
    (1, Step::Pull(0)),
];

fn events_of(rt: &HostRuntime, steps: &[(u32, Step)]) -> Result<Vec<Event>, Fail> {
    let mut events = Vec::new(rt.alloc());
    for (seat, step) in steps {
        let (seat, step) = (*seat, *step);
        events.push(Event { seat, step })?;
    }
    Ok(events)
}

fn replayed(rt: &HostRuntime, start: CoreState, events: &[Event]) -> Result<CoreState, Fail>
    requires { Laws start }
{
    match replay(rt.alloc(), start, events) {
        Ok(core) => Ok(core),
        Err(_) => Err("a step was refused".into()),
    }
}

#[test]
fn a_chunk_passes_an_edge(rt: HostRuntime) -> Result<(), Fail> {
    let events = events_of(&rt, &CHUNK_PASSES)?;
    let core = replayed(&rt, two_nodes(&rt)?, events.as_slice())?;
    let [port] = core.ports.as_slice() else {
        return Err("there is one edge".into());
    };
    let needed = Flags {
        needed: true,
        ..NO_FLAGS
    };
    assert!(rt; core.pending == 1 && port.flags == needed && port.slot == None);
    assert!(rt;
        port.pushed.as_slice() == [7].as_slice() && port.pulled.as_slice() == [7].as_slice()
    );
    let [producer, consumer] = core.nodes.as_slice() else {
        return Err("there are two nodes".into());
    };
    assert!(rt; producer.word == 0 && producer.tokens == 0 && consumer.word == HELD);
    assert!(rt; consumer.held && consumer.owes.as_slice() == [0].as_slice());
    Ok(())
}

#[test]
fn a_second_pull_is_no_step(rt: HostRuntime) -> Result<(), Fail> {
    let mut events = events_of(&rt, &CHUNK_PASSES)?;
    let (seat, step) = (1, Step::Pull(0));
    events.push(Event { seat, step })?;
    let ended = replay(rt.alloc(), two_nodes(&rt)?, events.as_slice());
    assert!(rt; matches!(ended, Err(ReplayEnd::BadEvent(18))));
    Ok(())
}

/// A node 0 with a reserve of the node 1 and the edge 0.
fn reserved_node(rt: &HostRuntime) -> Result<CoreState, Fail>
    ensures { IfOk result (λ c. Laws c) }
{
    let reserve = Reserve {
        node: 0,
        first_node: 1,
        nodes: 1,
        first_edge: 0,
        edges: 1,
    };
    let sizes = Sizes {
        nodes: 2,
        wires: List::new(rt.alloc()),
        reserves: List::from_vec(vec![in rt.alloc(); reserve]?),
        workers: 0,
    };
    started(rt, &sizes)
}

#[test]
fn a_born_node_begins_with_a_token(rt: HostRuntime) -> Result<(), Fail> {
    let start = reserved_node(&rt)?;
    assert!(rt; start.pending == 1 && start.nodes.get(0).word == FIRST);
    let steps = [(1, Step::TokenIn), (1, Step::Birth), (1, Step::Begin)];
    let bad = events_of(&rt, &steps)?;
    let ended = replay(rt.alloc(), start, bad.as_slice());
    assert!(rt; matches!(ended, Err(ReplayEnd::BadEvent(2))));
    let steps = [
        (1, Step::TokenIn),
        (1, Step::Birth),
        (1, Step::TokenIn),
        (1, Step::Begin),
    ];
    let events = events_of(&rt, &steps)?;
    let core = replayed(&rt, reserved_node(&rt)?, events.as_slice())?;
    let [live, born] = core.nodes.as_slice() else {
        return Err("there are two nodes".into());
    };
    assert!(rt; core.pending == 3 && live.word == FIRST);
    assert!(rt; born.word == HELD && born.held && born.tokens == 1);
    Ok(())
}

/// Three nodes in a triangle, of which node 0 may grow two more nodes and two edges.
fn growing_nodes(rt: &HostRuntime) -> Result<CoreState, Fail>
    ensures { IfOk result (λ c. Laws c) }
{
    let (first, second, third) = (wire(0, 0, 1, 0), wire(1, 0, 2, 0), wire(0, 1, 2, 1));
    let wires = vec![in rt.alloc(); first, second, third]?;
    let reserve = Reserve {
        node: 0,
        first_node: 3,
        nodes: 2,
        first_edge: 3,
        edges: 2,
    };
    let sizes = Sizes {
        nodes: 5,
        wires: List::from_vec(wires),
        reserves: List::from_vec(vec![in rt.alloc(); reserve]?),
        workers: 1,
    };
    started(rt, &sizes)
}

/// An event by a number, which may be a step or none; what ends a port or a node comes seldom.
fn some_event(number: u64) -> Event {
    let seat = (number / 64 % 6) as u32;
    let e = (number / 512 % 5) as u32;
    let other = (number / 4096 % 5) as u32;
    let rare = number / 32768 % 4000 == 0;
    let step = match number % 32 {
        0..=4 => Step::Look(e),
        5..=6 => Step::Want(e),
        7 => Step::Unwant(e),
        8..=9 => Step::Push(e, number / 32768 % 1000),
        10..=11 => Step::Pull(e),
        12..=16 => Step::Mark(e),
        17..=18 => Step::Begin,
        19..=20 => Step::Again,
        21..=22 => Step::Rest,
        23..=24 => Step::TokenIn,
        25 => Step::TokenOut,
        26 => Step::Wire(e, wire(seat, 2, other, 2)),
        27 => Step::Wired(e),
        28 => Step::Birth,
        29 if rare => Step::Finish(e),
        30 if rare => Step::ClosePort(e),
        31 if rare => Step::Over,
        29 => Step::Stop,
        _ => Step::See,
    };
    Event { seat, step }
}

/// Events that are steps one after another, picked by a generator of numbers, and the state after
/// them.
fn walk(rt: &HostRuntime, count: usize) -> Result<(Vec<Event>, CoreState), Fail> {
    let mut core = growing_nodes(rt)?;
    let mut events = Vec::new(rt.alloc());
    let mut seed = 1u64;
    for _ in 0..1_000_000 {
        seed = seed
            .wrapping_mul(6364136223846793005)
            .wrapping_add(1442695040888963407);
        let event = some_event(seed >> 20);
        if events.len() < count && is_step(&core, event) {
            events.push(event)?;
            core = match replay(rt.alloc(), core, &[event]) {
                Ok(next) => next,
                Err(_) => return Err("a step was refused".into()),
            };
        }
    }
    Ok((events, core))
}

#[test]
fn a_walk_of_steps_is_accepted(rt: HostRuntime) -> Result<(), Fail> {
    let (events, last) = walk(&rt, 10_000)?;
    let core = replayed(&rt, growing_nodes(&rt)?, events.as_slice())?;
    assert!(rt; events.len() == 10_000 && core.pending == last.pending);
    assert!(rt; core.nodes.len() == last.nodes.len());
    for (node, same) in core.nodes.as_slice().iter().zip(last.nodes.as_slice()) {
        assert!(rt; node.word == same.word);
    }
    let Some(port) = core.ports.as_slice().first() else {
        return Err("a port is missing".into());
    };
    assert!(rt; port.pulled.len() > 10);
    Ok(())
}

#[test]
fn a_doubled_event_is_refused_at_its_place(rt: HostRuntime) -> Result<(), Fail> {
    let (events, _) = walk(&rt, 10_000)?;
    let mut place = 0;
    for k in 0..events.len() {
        if matches!(events[k].step, Step::Push(_, _)) {
            place = k;
        }
    }
    let mut doubled = Vec::new(rt.alloc());
    for k in 0..events.len() {
        doubled.push(events[k])?;
        if k == place {
            doubled.push(events[k])?;
        }
    }
    match replay(rt.alloc(), growing_nodes(&rt)?, doubled.as_slice()) {
        Err(ReplayEnd::BadEvent(k)) => assert_eq!(rt; k.checked_sub(1), Some(place as u64)),
        _ => return Err("a doubled push was taken".into()),
    }
    Ok(())
}
