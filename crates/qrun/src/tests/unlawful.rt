// Boxes that don't keep their contract.
ghost use Rattle.std.specs.Prelude.{◌≡◌, IfOk, OnOk, map};
ghost use Rattle.std.specs.List.{All};
ghost use Rattle.proc_api.specs.Clauses.{IsBlank};
ghost use Rattle.proc_api.specs.Forms.{growth_form};
ghost use Rattle.qrun.specs.Unlawful.{loop_growth};

use super::boxes::add_each;
use super::refusals::push_file;
use super::{AMPLE, Runs, Setting, add_told_sources, bars, reader_of, run_shown};
use chunk_data::{Chunk, List, Memory};
use csv_procs::ListSource;
use flow_procs::Filter;
use outside_io::FileEntry;
use port_word::PortView;
use proc_api::{
    BoxNotes, Edge, End, Growth, LoadRefusal, Processor, Rack, Status, Wake, Who, WorkFault,
};
use query_model::processor_spec::{Kind, Spec};
use std::alloc::Global;
use std::process::Abort;
use std::sync::Wait;
use std::test::Fail;
use std::thread::Threads;

/// A processor that moves nothing and always gives one answer, and that lets the graph grow by an
/// edge from itself to itself. It answers as it is asked, and not as its contract says.
#[derive(Drop)]
struct Unlawful<P> {
    /// What it should be.
    inner: P,
    status: Status,
    /// Whether it was prepared since it was loaded.
    viewed: bool,
    grown: bool,
    fault: Option<WorkFault>,
    notes: BoxNotes,
    alloc: Global,
}

impl<P: Processor> Processor for Unlawful<P> {
    ghost use Rattle.std.specs.Prelude.{false, Some, None, if◌then◌else◌};
    ghost use Rattle.proc_api.specs.Names.{no_notes};
    ghost use Rattle.qrun.specs.Unlawful.{loop_growth};

    ghost seen = { λ u. record (P.seen u.inner) {
      lawful = false;
      notes = record no_notes {
        view = if u.viewed then u.notes.view else None;
        answer = if u.viewed then u.notes.answer else None;
        acted = if u.viewed then u.notes.acted else false;
        fault = u.fault;
      };
      growth = if u.grown then Some loop_growth else None;
    } };

    ghost position = { λ u. P.position u.inner };

    fn kind(&self) -> Kind {
        self.inner.kind()
    }

    fn load(&mut self, spec: Spec) -> Result<(), LoadRefusal> {
        self.inner.load(spec)?;
        self.viewed = false;
        self.grown = false;
        self.fault = None;
        Ok(())
    }

    fn prepare(&mut self, view: &mut PortView) -> Status {
        self.notes.note_view(view, self.status);
        self.viewed = true;
        self.status
    }

    fn work(&mut self) -> Result<(), WorkFault> {
        self.fault = Some(WorkFault::Memory);
        Err(WorkFault::Memory)
    }

    fn schedule(&mut self) -> Result<Wake, WorkFault> {
        self.fault = Some(WorkFault::Memory);
        Err(WorkFault::Memory)
    }

    fn expand(&mut self) -> Result<Growth, WorkFault> {
        match loop_of(self.alloc) {
            Ok(growth) => {
                self.grown = true;
                self.viewed = true;
                self.notes.note_act();
                Ok(growth)
            }
            Err(Memory) => {
                self.fault = Some(WorkFault::Memory);
                Err(WorkFault::Memory)
            }
        }
    }

    fn take_rows(&mut self) -> Vec<Chunk> {
        self.inner.take_rows()
    }

    fn unload(&mut self) {
        self.inner.unload();
        self.viewed = false;
        self.grown = false;
        self.fault = None;
    }
}

/// A growth by an edge from the box to itself.
fn loop_of(alloc: Global) -> Result<Growth, Memory>
    ensures { IfOk result (λ g. growth_form g ≡ loop_growth) }
{
    let edge = Edge {
        from: End {
            who: Who::Me,
            port: 0,
        },
        to: End {
            who: Who::Me,
            port: 0,
        },
    };
    Ok(Growth {
        nodes: List::new(alloc),
        edges: List::from_vec(vec![in alloc; edge]?),
    })
}

/// Adds a blank box, whatever it keeps.
fn put_blank(rack: &mut Rack, b: Box<dyn Processor + Send>) -> Result<(), Memory>
    requires { IsBlank (seen b) }
    ensures { OnOk result (All IsBlank (map (λ b. seen b) rack.old.boxes.items)
        → All IsBlank (map (λ b. seen b) rack.new.boxes.items)) }
{
    rack.boxes.push(b)?;
    Ok(())
}

/// One that should be this processor.
fn make_unlawful<P: Processor>(
    alloc: Global,
    inner: P,
    status: Status,
) -> Result<Unlawful<P>, Memory>
    ensures { IfOk result (λ u. u.inner ≡ inner) }
{
    Ok(Unlawful {
        inner,
        status,
        viewed: false,
        grown: false,
        fault: None,
        notes: BoxNotes::new(alloc)?,
        alloc,
    })
}

/// Adds a filter that always gives this answer.
fn put_filter(alloc: Global, rack: &mut Rack, status: Status) -> Result<(), Memory>
    ensures { OnOk result (All IsBlank (map (λ b. seen (b.vtable, b.value)) rack.old.boxes.items)
        → All IsBlank (map (λ b. seen (b.vtable, b.value)) rack.new.boxes.items)) }
{
    let filter = make_unlawful(alloc, Filter::new(alloc), status)?;
    put_blank(rack, Box::new(alloc, filter)?)
}

/// And a source of lists.
fn put_list(
    alloc: Global,
    rack: &mut Rack,
    files: &List<FileEntry>,
    status: Status,
) -> Result<(), Fail>
    ensures { OnOk result (All IsBlank (map (λ b. seen (b.vtable, b.value)) rack.old.boxes.items)
        → All IsBlank (map (λ b. seen (b.vtable, b.value)) rack.new.boxes.items)) }
{
    let reader = reader_of(alloc, files, AMPLE, 0)?;
    let list = make_unlawful(alloc, ListSource::new(alloc, reader), status)?;
    put_blank(rack, Box::new(alloc, list)?)?;
    Ok(())
}

/// The kind of the box that isn't lawful, and what it always answers.
type Answers = (Kind, Status);

/// The words over the files by a rack with an unlawful box behind so many lawful filters, and then
/// the first worked command, which needs no box of its kind.
fn run_unlawful<R: AllocGlobal + Sync + Threads + Wait>(
    rt: &R,
    words: &str,
    filters: u32,
    answers: Answers,
) -> Result<Runs, Fail> {
    let files = files_of(rt.alloc())?;
    let words = bars(rt.alloc(), words)?;
    let mut rack = Rack::new(rt.alloc());
    let stock = [
        (Kind::Filter, filters),
        (Kind::Expression, 16),
        (Kind::Resize, 4),
        (Kind::Collect, 1),
    ];
    add_told_sources(rt, &mut rack, &files, AMPLE, Kind::Csv, 0, 33)?;
    add_each(rt, &mut rack, &stock)?;
    put_unlawful(rt.alloc(), &mut rack, &files, answers)?;
    let setting = Setting {
        serves: true,
        ..AMPLE
    };
    run_shown(rt, words.as_slice(), &mut rack, &files, setting, false)
}

fn put_unlawful(
    alloc: Global,
    rack: &mut Rack,
    files: &List<FileEntry>,
    answers: Answers,
) -> Result<(), Fail>
    ensures { OnOk result (All IsBlank (map (λ b. seen (b.vtable, b.value)) rack.old.boxes.items)
        → All IsBlank (map (λ b. seen (b.vtable, b.value)) rack.new.boxes.items)) }
{
    let (kind, status) = answers;
    match kind {
        Kind::Filter => put_filter(alloc, rack, status)?,
        Kind::List => put_list(alloc, rack, files, status)?,
        _ => return Err("no box of the kind".into()),
    }
    Ok(())
}

/// A part, a list that names it, and the file of the first worked command.
fn files_of(alloc: Global) -> Result<List<FileEntry>, Fail> {
    let mut files = Vec::new(alloc);
    push_file(alloc, &mut files, b"p.csv", b"1\n2\n")?;
    push_file(alloc, &mut files, b"list", b"p.csv\n")?;
    push_file(alloc, &mut files, b"row1.csv", b"7,x\n7,y\n")?;
    Ok(List::from_vec(files))
}

/// What lanes and chunks are, and how many lawful filters serve beside the unlawful one.
static SIZES: [(&str, u32); 6] = [
    ("|--threads|1|--chunk|1", 0),
    ("|--threads|4|--chunk|1", 3),
    ("|--threads|16|--chunk|1", 15),
    ("|--threads|1|--chunk|8192", 0),
    ("|--threads|4|--chunk|8192", 3),
    ("|--threads|16|--chunk|8192", 15),
];

/// By each size the line is told, where one is known, and then the first worked command answers.
fn check_unlawful<R: AllocGlobal + Sync + Threads + Wait>(
    rt: &R,
    abort: &impl Abort,
    words: &str,
    answers: Answers,
    line: Option<&str>,
) -> Result<(), Fail> {
    for (size, filters) in SIZES.iter() {
        let words = format!(in rt.alloc(); "{words}{size}")?;
        let runs = run_unlawful(rt, words.as_str(), *filters, answers)?;
        let outcomes = runs.outcomes.as_slice();
        assert_eq!(abort; outcomes.len(), 2);
        if let (Some(first), Some(line)) = (outcomes.first(), line) {
            assert_eq!(abort; first.status, 6, "{words}");
            assert_eq!(abort; first.err.written(), line.as_bytes(), "{words}");
        }
        if let Some(last) = outcomes.last() {
            assert_eq!(abort; last.status, 0, "{words}");
            assert_eq!(abort; last.out.written(), b"7\n7\n".as_slice(), "{words}");
        }
    }
    Ok(())
}

/// A filter that waits for an input that it doesn't need.
#[test]
fn a_filter_needs_nothing(rt: HostRuntime) -> Result<(), Fail> {
    let words = "--query|SELECT a FROM t WHERE a > 0|--tables|t=p.csv:a Int64";
    let line = "qrun: limit: unlawful box of kind Filter\n";
    check_unlawful(
        &rt,
        &rt,
        words,
        (Kind::Filter, Status::NeedData),
        Some(line),
    )
}

/// A filter that has finished at once.
#[test]
fn a_filter_finishes_at_once(rt: HostRuntime) -> Result<(), Fail> {
    let words = "--query|SELECT a FROM t WHERE a > 0|--tables|t=p.csv:a Int64";
    check_unlawful(&rt, &rt, words, (Kind::Filter, Status::Finished), None)
}

/// A source of lists whose growth joins it to itself.
#[test]
fn a_list_grows_by_itself(rt: HostRuntime) -> Result<(), Fail> {
    let words = "--query|SELECT a FROM t|--tables|t=@list:a Int64";
    let line = "qrun: limit: unlawful box of kind List\n";
    check_unlawful(
        &rt,
        &rt,
        words,
        (Kind::List, Status::ExpandPipeline),
        Some(line),
    )
}
