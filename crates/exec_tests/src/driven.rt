// Boxes driven by hand, as an executor drives them, by a script.
ghost use Rattle.std.specs.Prelude.{◌≡◌, [], true, false, IfOk, OnOk, Some, ℕ};
ghost use Rattle.port_word.specs.Names.{MaySee, Picture, new_picture};
ghost use Rattle.proc_api.specs.declared.status.Answer.TheVariants.{Prepared, Scheduled};
ghost use Rattle.proc_api.specs.declared.status.Status.TheVariants as answered;
ghost use Rattle.proc_api.specs.Names.{BoxPicture, FollowsKept, IsRunning, MaySchedule};

use chunk_data::{Bytes, Chunk, ColumnType, List, Value};
use csv_rows::RowReader;
use port_word::{Action, Flags, Port, PortView};
use proc_api::{BadField, BadPlace, Growth, LoadRefusal, Processor, Status, Wake, WorkFault};
use query_model::processor_spec::Spec;
use std::alloc::{AllocError, Global};
use std::process::Abort;
use std::test::Fail;

/// What stands before the sign, and behind it.
pub(crate) fn halves(text: &str, sign: char) -> (&str, &str) {
    text.split_once(sign).unwrap_or((text, ""))
}

/// The types that the letters stand for: `i` for Int64, `n` for Nullable(Int64), `t` for Text.
pub(crate) fn types_of(alloc: Global, letters: &str) -> Result<List<ColumnType>, Fail> {
    let mut types = Vec::new(alloc);
    for letter in letters.as_bytes() {
        types.push(match *letter {
            b'i' => ColumnType::Int64,
            b'n' => ColumnType::NullInt64,
            _ => ColumnType::Text,
        })?;
    }
    Ok(List::from_vec(types))
}

/// The rows, between which a `;` stands.
pub(crate) fn chunk_of(alloc: Global, letters: &str, rows: &str) -> Result<Chunk, Fail> {
    let types = types_of(alloc, letters)?;
    let bytes = rows.replace(alloc, ";", "\n")?.into_bytes();
    if types.len() > 9 {
        return Err("too many columns".into());
    }
    match RowReader::new(alloc, bytes, false)?.next_chunk(alloc, &types, 99) {
        Ok(chunk) => Ok(chunk),
        Err(_) => Err("these are no rows".into()),
    }
}

/// Each row's first value, of a joined row the first of either half, and a blank; of many rows
/// their number.
pub(crate) fn show(text: &mut String, chunk: &Chunk) -> Result<(), Fail> {
    let rows = chunk.rows();
    if rows > 9 {
        return Ok(write!(text, "{rows} rows")?);
    }
    for i in 0..rows {
        for (place, value) in chunk.row(i)?.as_slice().iter().enumerate() {
            if place % 3 == 0 {
                show_value(text, value)?;
            }
        }
        text.push(' ')?;
    }
    Ok(())
}

fn show_value(text: &mut String, value: &Value) -> Result<(), AllocError> {
    match value {
        Value::Int(number) => write!(text, "{number}"),
        Value::UInt(number) => write!(text, "{number}"),
        Value::Text(bytes) => show_bytes(text, bytes),
        Value::Null => text.push_str("\\N"),
    }
}

fn show_bytes(text: &mut String, bytes: &Bytes) -> Result<(), AllocError> {
    for byte in bytes.as_slice() {
        text.push(*byte as char)?;
    }
    Ok(())
}

/// A fault in a word, and of a bad place its row, and its column or the number of its fields.
pub(crate) fn show_fault(text: &mut String, fault: WorkFault) -> Result<(), AllocError> {
    let WorkFault::Bad(BadPlace { row, field }) = fault else {
        return write!(text, "{fault:?}");
    };
    match field {
        BadField::Column(column) => write!(text, "bad {row} {column}"),
        BadField::Fields(fields) => write!(text, "bad {row} of {fields}"),
    }
}

pub(crate) fn load(b: &mut Box<dyn Processor + Send>, spec: Spec) -> Result<(), LoadRefusal>
    ensures running { OnOk result (IsRunning (seen b.new)) }
    ensures follows { OnOk result ((inputs outputs : ℕ)
        → FollowsKept (seen b.new) (new_picture inputs outputs)) }
{
    b.load(spec)
}

fn prepare(b: &mut Box<dyn Processor + Send>, view: &mut PortView) -> Status
    requires running { IsRunning (seen b.old) }
    requires follows { FollowsKept (seen b.old) view.old }
    ensures running { IsRunning (seen b.new) }
    ensures follows { FollowsKept (seen b.new) view.new }
    ensures answer { (seen b.new).notes.answer ≡ Some (Prepared result) }
    ensures not_acted { (seen b.new).notes.acted ≡ false }
{
    b.prepare(view)
}

fn schedule(b: &mut Box<dyn Processor + Send>) -> Result<Wake, WorkFault>
    requires running { IsRunning (seen b.old) }
    requires fetching { MaySchedule (seen b.old).notes.answer }
    ensures running { OnOk result (IsRunning (seen b.new)) }
    ensures answer { IfOk result (λ wake. (seen b.new).notes.answer ≡ Some (Scheduled wake)) }
    ensures follows { OnOk result ((v : Picture) → FollowsKept (seen b.old) v
        → FollowsKept (seen b.new) v) }
{
    b.schedule()
}

// Makes a chunk; false after a fault, which is shown.
fn make(b: &mut Box<dyn Processor + Send>, text: &mut String) -> Result<bool, Fail>
    requires running { IsRunning (seen b.old) }
    requires answer { (seen b.old).notes.answer ≡ Some (Prepared answered.Ready) }
    requires not_acted { (seen b.old).notes.acted ≡ false }
    ensures running { IfOk result (λ more. more ≡ true → IsRunning (seen b.new)) }
    ensures follows { IfOk result (λ more. more ≡ true → (v : Picture)
        → FollowsKept (seen b.old) v → FollowsKept (seen b.new) v) }
{
    match b.work() {
        Ok(()) => Ok(true),
        Err(fault) => {
            show_fault(text, fault)?;
            Ok(false)
        }
    }
}

fn expand(b: &mut Box<dyn Processor + Send>) -> Result<Growth, WorkFault>
    requires running { IsRunning (seen b.old) }
    requires answer { (seen b.old).notes.answer ≡ Some (Prepared answered.ExpandPipeline) }
    requires not_acted { (seen b.old).notes.acted ≡ false }
    ensures running { OnOk result (IsRunning (seen b.new)) }
    ensures follows { OnOk result ((v : Picture) → FollowsKept (seen b.old) v
        → FollowsKept (seen b.new) v) }
{
    b.expand()
}

// Each new source's part and path.
fn show_growth(text: &mut String, growth: &Growth) -> Result<(), AllocError> {
    for node in growth.nodes.as_slice() {
        if let Spec::Csv(part) = &node.spec {
            write!(text, "{} ", part.part)?;
            show_bytes(text, &part.path)?;
            text.push(' ')?;
        }
    }
    Ok(())
}

// The view gets so many inputs more.
fn widen(view: &mut PortView, more: usize) -> Result<(), Fail>
    requires { view.old.actions ≡ [] }
    ensures follows { OnOk result ((p : BoxPicture) → FollowsKept p view.old
        → FollowsKept p view.new) }
    ensures taken { OnOk result (view.new.actions ≡ []) }
{
    let inputs = view.inputs();
    let outputs = view.outputs();
    if inputs > 32 || outputs > 16 || more > 32 - inputs {
        return Err("too many inputs".into());
    }
    view.grow(inputs + more, outputs)?;
    Ok(())
}

// Grows the view by an input for each new source, which are shown; false after a fault, which is
// shown.
fn grow(
    b: &mut Box<dyn Processor + Send>,
    view: &mut PortView,
    text: &mut String,
) -> Result<bool, Fail>
    requires running { IsRunning (seen b.old) }
    requires follows { FollowsKept (seen b.old) view.old }
    requires answer { (seen b.old).notes.answer ≡ Some (Prepared answered.ExpandPipeline) }
    requires not_acted { (seen b.old).notes.acted ≡ false }
    requires taken { view.old.actions ≡ [] }
    ensures running { IfOk result (λ more. more ≡ true → IsRunning (seen b.new)) }
    ensures follows { IfOk result (λ more. more ≡ true → FollowsKept (seen b.new) view.new) }
{
    match expand(b) {
        Ok(growth) => {
            show_growth(text, &growth)?;
            widen(view, growth.edges.len())?;
            Ok(true)
        }
        Err(fault) => {
            show_fault(text, fault)?;
            Ok(false)
        }
    }
}

// Fetches a file whole, with a point for each time that there is nothing yet; false after a fault,
// which is shown.
fn fetch_all(b: &mut Box<dyn Processor + Send>, text: &mut String) -> Result<bool, Fail>
    requires running { IsRunning (seen b.old) }
    requires fetching { MaySchedule (seen b.old).notes.answer }
    ensures running { IfOk result (λ more. more ≡ true → IsRunning (seen b.new)) }
    ensures follows { IfOk result (λ more. more ≡ true → (v : Picture)
        → FollowsKept (seen b.old) v → FollowsKept (seen b.new) v) }
{
    for _turn in 0..9 {
        match schedule(b) {
            Ok(Wake::Later) => text.push('.')?,
            Ok(Wake::Ready) => return Ok(true),
            Err(fault) => {
                show_fault(text, fault)?;
                return Ok(false);
            }
        }
    }
    Err("a fetch goes on and on".into())
}

// Brings the port up to date.
fn see(view: &mut PortView, port: Port, flags: Flags, chunk: Option<Chunk>)
    requires { MaySee view.old port flags chunk }
    ensures follows { (p : BoxPicture) → FollowsKept p view.old → FollowsKept p view.new }
    ensures taken { view.new.actions ≡ [] }
{
    let _inputs = view.inputs();
    view.see(port, flags, chunk)
}

/// The consumer needs a chunk.
pub(crate) fn need(view: &mut PortView, o: usize) -> Result<(), Fail>
    requires { view.old.actions ≡ [] }
    ensures follows { (p : BoxPicture) → FollowsKept p view.old → FollowsKept p view.new }
    ensures taken { view.new.actions ≡ [] }
{
    if o >= view.outputs() {
        return Err("an output is missing".into());
    }
    let mut flags = view.output_flags(o);
    flags.needed = true;
    flags.has_data = false;
    see(view, Port::Output(o), flags, None);
    Ok(())
}

/// A chunk comes at the input; where it is the last, or there is none, the producer finishes it.
pub(crate) fn supply(
    view: &mut PortView,
    i: usize,
    chunk: Option<Chunk>,
    last: bool,
) -> Result<(), Fail>
    requires { view.old.actions ≡ [] }
    ensures follows { (p : BoxPicture) → FollowsKept p view.old → FollowsKept p view.new }
    ensures taken { view.new.actions ≡ [] }
{
    if i >= view.inputs() {
        return Err("an input is missing".into());
    }
    let mut flags = view.input_flags(i);
    if flags.has_data || flags.fin_in || flags.fin_out {
        return Err("nothing comes at the input".into());
    }
    match chunk {
        Some(chunk) => {
            flags.has_data = true;
            flags.fin_out = last;
            see(view, Port::Input(i), flags, Some(chunk));
        }
        None => {
            flags.fin_out = true;
            see(view, Port::Input(i), flags, None);
        }
    }
    Ok(())
}

// Takes all actions of the view, and shows the chunks that were pushed; the last one's output, if
// there was one.
fn take_actions(view: &mut PortView, text: &mut String) -> Result<Option<usize>, Fail>
    ensures taken { OnOk result (view.new.actions ≡ []) }
    ensures follows { OnOk result ((p : BoxPicture) → FollowsKept p view.old
        → FollowsKept p view.new) }
{
    let mut pushed = None;
    for _turn in 0..99 {
        match view.next_action() {
            Some(Action::Push(o, chunk)) => {
                show(text, &chunk)?;
                pushed = Some(o);
            }
            Some(_) => {}
            None => return Ok(pushed),
        }
    }
    Err("more actions than the ports can have".into())
}

// How a box ended, and what it hands out.
fn show_end(
    b: &mut Box<dyn Processor + Send>,
    view: &PortView,
    text: &mut String,
) -> Result<(), Fail>
    requires { IsRunning (seen b.old) }
{
    text.push_str("end")?;
    if view.inputs() > 0 && view.input_flags(0).fin_in {
        text.push_str(", closed")?;
    }
    for chunk in b.take_rows().as_slice() {
        text.push('|')?;
        show(text, chunk)?;
    }
    Ok(())
}

// Goes on until the box waits for data, a point, or for room, a line; false where it ended or after
// a fault. A chunk at output 0 is taken at once, and the next one needed.
fn go_on(
    b: &mut Box<dyn Processor + Send>,
    view: &mut PortView,
    text: &mut String,
) -> Result<bool, Fail>
    requires running { IsRunning (seen b.old) }
    requires follows { FollowsKept (seen b.old) view.old }
    ensures running { IfOk result (λ more. more ≡ true → IsRunning (seen b.new)) }
    ensures follows { IfOk result (λ more. more ≡ true → FollowsKept (seen b.new) view.new) }
    ensures taken { IfOk result (λ more. more ≡ true → view.new.actions ≡ []) }
{
    for _turn in 0..99 {
        let status = prepare(b, view);
        if let Some(o) = take_actions(view, text)? {
            text.push('|')?;
            if o == 0 {
                need(view, 0)?;
            }
        } else {
            let more = match status {
                Status::Ready => make(b, text)?,
                Status::Async => fetch_all(b, text)?,
                Status::ExpandPipeline => grow(b, view, text)?,
                Status::Finished => {
                    show_end(b, view, text)?;
                    false
                }
                _ => {
                    text.push(if status == Status::NeedData { '.' } else { '-' })?;
                    return Ok(true);
                }
            };
            if !more {
                return Ok(false);
            }
        }
    }
    Err("it goes on for ever".into())
}

// What the other ends of the ports do in a step.
fn act(view: &mut PortView, letters: &str, step: &str, alloc: Global) -> Result<(), Fail>
    requires { view.old.actions ≡ [] }
    ensures follows { (p : BoxPicture) → FollowsKept p view.old → FollowsKept p view.new }
    ensures taken { view.new.actions ≡ [] }
{
    if let Some((i, rows)) = step.split_once(':') {
        let chunk = chunk_of(alloc, letters, rows)?;
        return supply(view, i.parse().unwrap_or(99), Some(chunk), false);
    }
    if let Some(i) = step.strip_prefix('e') {
        return supply(view, i.parse().unwrap_or(99), None, true);
    }
    match step.strip_prefix('n') {
        Some(o) => need(view, o.parse().unwrap_or(99)),
        None => Ok(()),
    }
}

// A step, behind which the box goes on where no `+` stands.
fn take_step(
    b: &mut Box<dyn Processor + Send>,
    view: &mut PortView,
    letters: &str,
    step: &str,
    text: &mut String,
) -> Result<bool, Fail>
    requires running { IsRunning (seen b.old) }
    requires follows { FollowsKept (seen b.old) view.old }
    requires taken { view.old.actions ≡ [] }
    ensures running { IfOk result (λ more. more ≡ true → IsRunning (seen b.new)) }
    ensures follows { IfOk result (λ more. more ≡ true → FollowsKept (seen b.new) view.new) }
    ensures taken { IfOk result (λ more. more ≡ true → view.new.actions ≡ []) }
{
    act(view, letters, step.trim_end_matches('+'), *text.allocator())?;
    if step.ends_with('+') {
        return Ok(true);
    }
    go_on(b, view, text)
}

// What the box does, from its load by a script to its unload, with so many inputs and outputs and
// columns of these types.
fn driven(
    alloc: Global,
    b: &mut Box<dyn Processor + Send>,
    spec: Spec,
    ports: &str,
    script: &str,
) -> Result<String, Fail> {
    if load(b, spec).is_err() {
        return Err("a blank box was not loaded".into());
    }
    let (inputs, rest) = halves(ports, ' ');
    let (outputs, letters) = halves(rest, ' ');
    let (inputs, outputs) = (inputs.parse().unwrap_or(99), outputs.parse().unwrap_or(99));
    if inputs > 32 || outputs > 16 {
        return Err("too many ports".into());
    }
    let mut text = String::new(alloc);
    let mut view = PortView::new(alloc, inputs, outputs)?;
    for step in script.split(' ') {
        if !take_step(b, &mut view, letters, step, &mut text)? {
            break;
        }
    }
    b.unload();
    Ok(text)
}

/// Drives a box through several loads. Between a case's `/`s stand how the box is made, its inputs,
/// outputs and columns' types, a script, and then for each load its words, a script of its own
/// behind a `|` or none, a `~`, and what the box does. A step of a script is `n3` where output 3
/// needs a chunk, `e0` where input 0 ends, and `0:1;2` where a chunk of these rows comes at input
/// 0. Behind a step without a `+` the box goes on.
pub(crate) fn drive<F: Fn(Global, &str, &str) -> Result<Spec, Fail>>(
    rt: &impl Abort,
    alloc: Global,
    b: &mut Box<dyn Processor + Send>,
    case: &str,
    spec: F,
) -> Result<(), Fail>
    requires { F.IsAlwaysCallable spec }
{
    let (made, rest) = halves(case, '/');
    let (ports, rest) = halves(rest, '/');
    let (script, loads) = halves(rest, '/');
    for load in loads.split('/') {
        let (load, expected) = halves(load, '~');
        let (words, own) = load.split_once('|').unwrap_or((load, script));
        let text = driven(alloc, b, spec(alloc, made, words)?, ports, own)?;
        assert_eq!(rt; text.as_str(), expected, "{case}");
    }
    Ok(())
}
