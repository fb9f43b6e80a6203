// Worked runs over files and sinks in memory. What each must give is told by the description of
// the program, and not taken from its output.
ghost use Rattle.std.specs.Prelude.{◌≡◌, map, string_bytes, IfOk, IsTrue, OnOk, Some};
ghost use Rattle.std.specs.List.{All};
ghost use Rattle.outside_io.specs.Counts.{CountIncreased};
ghost use Rattle.outside_io.specs.Scripts.{IsRising};
ghost use Rattle.outside_io.specs.Told.{files_of as told_pairs};
ghost use Rattle.proc_api.specs.Clauses.{IsBlank, IsUnloadedProcessor};
ghost use Rattle.query_run.specs.Names.{IsHonest};
ghost use Rattle.qrun.specs.Stocking.{AddsTold, IsAnsweredOver};
ghost use Rattle.qrun.specs.declared.racks.TheConstants.{LISTS as lists_of_rack, OTHERS as others_of_rack, SOURCES as sources_of_rack};

mod boxes;
mod cases;
mod devices;
mod groups;
mod joins;
mod lists;
mod nulls;
mod orders;
mod plans;
mod queries;
mod refusals;
mod stress;
mod unlawful;

use crate::racks::{LISTS, OTHERS, SOURCES};
use crate::tests::boxes::add_each;
use chunk_data::{Bytes, Chunk, List, Memory};
use csv_procs::{CsvSource, ListSource};
use outside_io::{Failed, Fake, FakeKind, FileEntry, FileReader, Got, MemFiles, MemSink, Sink};
use port_word::PortView;
use proc_api::{Growth, LoadRefusal, Processor, Rack, Status, Wake, WorkFault};
use query_model::processor_spec::{Kind, Spec};
use query_run::run;
use std::alloc::{AllocError, Global};
use std::sync::atomic::{AtomicU64, Ordering};
use std::sync::{Arc, Wait};
use std::test::Fail;
use std::thread::Threads;

/// Files in memory whose reader has nothing yet so many times before the first byte, and now and
/// then, where noise isn't 0.
#[derive(Drop)]
struct SlowFiles {
    files: MemFiles,
    waits: u64,
    noise: u64,
    pendings: u64,
}

impl SlowFiles {
    /// Whether there is nothing this time. Noise goes on by Marsaglia's xorshift.
    fn has_nothing(&mut self) -> bool
        ensures files { self.new.files ≡ self.old.files }
        ensures pendings { self.new.pendings ≡ self.old.pendings }
    {
        if self.waits > 0 {
            self.waits -= 1;
            return true;
        }
        self.noise ^= self.noise << 13;
        self.noise ^= self.noise >> 7;
        self.noise ^= self.noise << 17;
        self.noise & 1 == 1
    }
}

impl FileReader for SlowFiles {
    ghost use Rattle.std.specs.Prelude.{Some};

    ghost reader = { λ s. record {
      files = Some s.files.files;
      position = s.files.position;
      faults = s.files.faults;
      pendings = s.pendings;
    } };

    fn open_path(&mut self, path: &Bytes) -> Result<(), Failed> {
        self.files.open_path(path)
    }

    fn read_some(&mut self, buf: &mut [u8]) -> Result<Got, Failed> {
        if self.has_nothing() {
            self.pendings = self.pendings.saturating_add(1);
            return Ok(Got::Pending);
        }
        match self.files.read_some(buf) {
            Ok(Got::Pending) => {
                self.pendings = self.pendings.saturating_add(1);
                Ok(Got::Pending)
            }
            other => other,
        }
    }

    fn shut(&mut self) {
        self.files.shut()
    }
}

/// A source that marks its calls, and whose work waits for that of another source.
#[derive(Drop)]
struct Marking {
    source: CsvSource<SlowFiles>,
    marks: Arc<AtomicU64, Global>,
    /// Its mark of a call of `prepare`; that of its work stands two bits higher.
    mark: u64,
}

/// The marks of the works of both, and of a work that didn't see the other's.
const WORKED: u64 = 12;

const MISSED: u64 = 16;

/// Whether both have worked after so many looks.
fn is_met(marks: &AtomicU64) -> bool {
    for _look in 0..100_000_000u64 {
        if marks.load(Ordering::SeqCst) & WORKED == WORKED {
            return true;
        }
    }
    false
}

impl Processor for Marking {
    ghost use Rattle.query_model.specs.declared.processor_spec.Kind.TheVariants as kind;
    ghost use Rattle.csv_procs.specs.Names.{seen_by};

    ghost seen = { λ c. seen_by kind.Csv c.source };

    ghost position = { λ c. c.source.position };

    fn kind(&self) -> Kind {
        self.source.kind()
    }

    fn load(&mut self, spec: Spec) -> Result<(), LoadRefusal> {
        self.source.load(spec)
    }

    fn prepare(&mut self, view: &mut PortView) -> Status {
        self.marks.fetch_or(self.mark, Ordering::SeqCst);
        self.source.prepare(view)
    }

    fn work(&mut self) -> Result<(), WorkFault> {
        self.marks.fetch_or(self.mark << 2, Ordering::SeqCst);
        if !is_met(&self.marks) {
            self.marks.fetch_or(MISSED, Ordering::SeqCst);
        }
        self.source.work()
    }

    fn schedule(&mut self) -> Result<Wake, WorkFault> {
        self.source.schedule()
    }

    fn expand(&mut self) -> Result<Growth, WorkFault> {
        self.source.expand()
    }

    fn take_rows(&mut self) -> Vec<Chunk> {
        self.source.take_rows()
    }

    fn unload(&mut self) {
        self.source.unload()
    }
}

/// What a run gave: its status, and the sinks of its answer and of its line.
#[derive(Drop)]
struct Outcome {
    status: u8,
    out: MemSink,
    err: MemSink,
}

/// How the readers and sinks of a run are, and how often it runs.
#[derive(Clone, Copy)]
struct Setting {
    /// The call of a reader that fails or has nothing yet.
    fake: Option<Fake>,
    /// How often a reader has nothing yet before its first byte.
    waits: u64,
    /// What begins the noise by which a reader has nothing now and then; 0 where it always has.
    noise: u64,
    /// The places in the rack of the sources whose readers are so; all are where none is named.
    only: &'static [u32],
    /// How often the words run.
    runs: u32,
    /// Whether the first worked command runs behind them, by the same rack.
    serves: bool,
    /// How many bytes the sink of the answer takes in a call, and in all.
    out: (usize, usize),
    /// And that of the line.
    err: (usize, usize),
}

/// The first worked command, over a file that each reader has beside the parts.
const FIRST: &str = "--query|SELECT a FROM t|--tables|t=row1.csv:a Int64,b String";

/// Readers that don't fail, and ample room.
const AMPLE: Setting = Setting {
    fake: None,
    waits: 0,
    noise: 0,
    only: &[],
    runs: 1,
    serves: false,
    out: (4096, 65_536),
    err: (80, 400),
};

fn text(alloc: Global, bytes: &[u8]) -> Result<Bytes, AllocError>
    ensures { IfOk result (λ t. t ≡ bytes.now) }
{
    Ok(Bytes::from_vec(Vec::from_slice(alloc, bytes)?))
}

/// The words, between which a bar stands.
fn bars(alloc: Global, text: &str) -> Result<Vec<String>, AllocError> {
    let mut words = Vec::new(alloc);
    for word in text.split('|') {
        words.push(String::from_str(alloc, word)?)?;
    }
    Ok(words)
}

/// The one file `f.csv`.
fn one_file(alloc: Global, bytes: &[u8]) -> Result<List<FileEntry>, Fail> {
    let mut files = Vec::new(alloc);
    files.push(FileEntry {
        path: text(alloc, b"f.csv")?,
        bytes: text(alloc, bytes)?,
    })?;
    Ok(List::from_vec(files))
}

/// A copy of the files.
fn copy_files(alloc: Global, files: &List<FileEntry>) -> Result<List<FileEntry>, Fail>
    ensures { IfOk result (λ copy. copy ≡ files.now) }
{
    let mut copy = Vec::new(alloc);
    for file in files.as_slice() {
        copy.push(copy_file(file)?)?;
    }
    Ok(List::from_vec(copy))
}

fn copy_file(file: &FileEntry) -> Result<FileEntry, Memory>
    ensures { IfOk result (λ copy. copy ≡ file.now) }
{
    let path = file.path.copy()?;
    let bytes = file.bytes.copy()?;
    Ok(FileEntry { path, bytes })
}

/// The script of one fake, or of none.
fn script_of(alloc: Global, fake: Option<Fake>) -> Result<List<Fake>, AllocError>
    ensures { IfOk result (λ script. IsRising script) }
{
    let mut script = Vec::new(alloc);
    match fake {
        Some(fake) => match script.push(fake) {
            Ok(()) => Ok(List::from_vec(script)),
            Err(_) => Err(AllocError),
        },
        None => Ok(List::from_vec(script)),
    }
}

fn reader_of(
    alloc: Global,
    files: &List<FileEntry>,
    setting: Setting,
    place: u32,
) -> Result<SlowFiles, Fail>
    ensures { IfOk result (λ r. r.files.files ≡ files.now) }
{
    let (fake, waits) = if setting.only.is_empty() || setting.only.contains(&place) {
        (setting.fake, setting.waits)
    } else {
        (None, 0)
    };
    let script = script_of(alloc, fake)?;
    let files = copy_files(alloc, files)?;
    Ok(SlowFiles {
        files: MemFiles::new(alloc, files, script),
        waits,
        noise: setting.noise.wrapping_mul(place as u64 + 1),
        pendings: 0,
    })
}

/// The outcomes of words that run over one rack, and the letters of its boxes before and after each
/// run.
#[derive(Drop)]
struct Runs {
    outcomes: Vec<Outcome>,
    kinds: String,
}

/// Adds a new source of the kind that tells the files.
fn put_told(
    rack: &mut Rack,
    kind: Kind,
    files: &List<FileEntry>,
    b: Box<dyn Processor + Send>,
) -> Result<(), AllocError>
    requires new { IsUnloadedProcessor kind (seen b) }
    requires told { (seen b).files ≡ Some (told_pairs files.now) }
    ensures { OnOk result (AddsTold kind 1 (Some (told_pairs files.now))
        (map (λ b. seen b) rack.old.boxes.items) (map (λ b. seen b) rack.new.boxes.items)) }
{
    rack.boxes.push(b)?;
    Ok(())
}

/// Adds a source of parts, or of lists of them.
fn add_told<R: AllocGlobal + Threads + Wait + Sync>(
    rt: &R,
    rack: &mut Rack,
    files: &List<FileEntry>,
    setting: Setting,
    kind: Kind,
    place: u32,
) -> Result<(), Fail>
    ensures { OnOk result (AddsTold kind 1 (Some (told_pairs files.now))
        (map (λ b. seen (b.vtable, b.value)) rack.old.boxes.items)
        (map (λ b. seen (b.vtable, b.value)) rack.new.boxes.items)) }
{
    let reader = reader_of(rt.alloc(), files, setting, place)?;
    match kind {
        Kind::Csv => {
            let source = Box::new(rt.alloc(), CsvSource::new(rt.alloc(), reader))?;
            put_told(rack, kind, files, source)?;
            Ok(())
        }
        Kind::List => {
            let source = Box::new(rt.alloc(), ListSource::new(rt.alloc(), reader))?;
            put_told(rack, kind, files, source)?;
            Ok(())
        }
        _ => Err("no source".into()),
    }
}

/// Adds so many sources of the kind, of which the first has this place in the rack.
fn add_told_sources<R: AllocGlobal + Threads + Wait + Sync>(
    rt: &R,
    rack: &mut Rack,
    files: &List<FileEntry>,
    setting: Setting,
    kind: Kind,
    first: u32,
    count: u32,
) -> Result<(), Fail>
    ensures { OnOk result (AddsTold kind count (Some (told_pairs files.now))
        (map (λ b. seen (b.vtable, b.value)) rack.old.boxes.items)
        (map (λ b. seen (b.vtable, b.value)) rack.new.boxes.items)) }
{
    for n in 0..count {
        add_told(rt, rack, files, setting, kind, first.saturating_add(n))?;
    }
    Ok(())
}

/// The words over the standard rack, or over one of boxes of these letters.
fn run_setting<R: AllocGlobal + Threads + Wait + Sync>(
    rt: &R,
    words: &[String],
    files: &List<FileEntry>,
    stock: Option<&str>,
    setting: Setting,
) -> Result<Runs, Fail> {
    let Some(letters) = stock else {
        return run_stocked(rt, words, files, setting, (SOURCES, LISTS), &OTHERS, true);
    };
    let mut sources: u32 = 0;
    let mut others = Vec::new(rt.alloc());
    for letter in letters.chars() {
        sources = sources.saturating_add((letter == 's') as u32);
        for (kind, _) in OTHERS {
            if letter_of(kind) == letter {
                others.push((kind, 1))?;
            }
        }
    }
    run_stocked(
        rt,
        words,
        files,
        setting,
        (sources, 0),
        others.as_slice(),
        false,
    )
}

fn run_stocked<R: AllocGlobal + Threads + Wait + Sync>(
    rt: &R,
    words: &[String],
    files: &List<FileEntry>,
    setting: Setting,
    sources: (u32, u32),
    others: &[(Kind, u32)],
    standard: bool,
) -> Result<Runs, Fail>
    requires { IsTrue standard → (sources.0 ≡ sources_of_rack) × (sources.1 ≡ lists_of_rack)
        × (others.now ≡ others_of_rack) }
{
    let mut rack = Rack::new(rt.alloc());
    add_told_sources(rt, &mut rack, files, setting, Kind::Csv, 0, sources.0)?;
    add_told_sources(
        rt,
        &mut rack,
        files,
        setting,
        Kind::List,
        sources.0,
        sources.1,
    )?;
    add_each(rt, &mut rack, others)?;
    run_shown(rt, words, &mut rack, files, setting, standard)
}

/// Runs by a rack that is the standard one or not.
fn run_shown<R: AllocGlobal + Threads + Wait + Sync>(
    rt: &R,
    words: &[String],
    rack: &mut Rack,
    files: &List<FileEntry>,
    setting: Setting,
    standard: bool,
) -> Result<Runs, Fail>
    requires blank { All IsBlank (map (λ b. seen (b.vtable, b.value)) rack.old.boxes.items) }
    requires honest { IsTrue standard → IsHonest (told_pairs files.now)
        (map (λ b. seen (b.vtable, b.value)) rack.old.boxes.items) }
{
    let mut kinds = String::new(rt.alloc());
    show_kinds(&mut kinds, rack)?;
    let mut outcomes = Vec::new(rt.alloc());
    outcomes.push(outcome_of(rt, words, rack, files, setting, standard)?)?;
    show_kinds(&mut kinds, rack)?;
    for _run in 1..setting.runs {
        outcomes.push(outcome_of(rt, words, rack, files, setting, false)?)?;
        show_kinds(&mut kinds, rack)?;
    }
    if setting.serves {
        let first = bars(rt.alloc(), FIRST)?;
        outcomes.push(outcome_of(rt, first.as_slice(), rack, files, AMPLE, false)?)?;
        show_kinds(&mut kinds, rack)?;
    }
    Ok(Runs { outcomes, kinds })
}

/// A run by a rack that is honest of the files: what was written is an answer's text over them.
fn run_honest<R: AllocGlobal + Threads + Wait + Sync, O: Sink, E: Sink>(
    rt: &R,
    words: &[String],
    rack: &mut Rack,
    files: &List<FileEntry>,
    out: &mut O,
    err: &mut E,
) -> u8
    requires blank { All IsBlank (map (λ b. seen (b.vtable, b.value)) rack.old.boxes.items) }
    requires honest { IsHonest (told_pairs files.now)
        (map (λ b. seen (b.vtable, b.value)) rack.old.boxes.items) }
    ensures answered { IsAnsweredOver (told_pairs files.now) (map string_bytes words.now)
        (map (λ b. seen (b.vtable, b.value)) rack.old.boxes.items)
        (map (λ b. seen (b.vtable, b.value)) rack.new.boxes.items) result
        (O.written out.old) (O.written out.new)
        (CountIncreased (O.faults out.old) (O.faults out.new)) }
    ensures blank { All IsBlank (map (λ b. seen (b.vtable, b.value)) rack.new.boxes.items) }
{
    run(rt, words, rack, out, err)
}

fn status_by<R: AllocGlobal + Threads + Wait + Sync, O: Sink, E: Sink>(
    rt: &R,
    words: &[String],
    rack: &mut Rack,
    files: &List<FileEntry>,
    honest: bool,
    out: &mut O,
    err: &mut E,
) -> u8
    requires blank { All IsBlank (map (λ b. seen (b.vtable, b.value)) rack.old.boxes.items) }
    requires honest { IsTrue honest → IsHonest (told_pairs files.now)
        (map (λ b. seen (b.vtable, b.value)) rack.old.boxes.items) }
    ensures { All IsBlank (map (λ b. seen (b.vtable, b.value)) rack.new.boxes.items) }
{
    if honest {
        run_honest(rt, words, rack, files, out, err)
    } else {
        run(rt, words, rack, out, err)
    }
}

fn outcome_of<R: AllocGlobal + Threads + Wait + Sync>(
    rt: &R,
    words: &[String],
    rack: &mut Rack,
    files: &List<FileEntry>,
    setting: Setting,
    honest: bool,
) -> Result<Outcome, Fail>
    requires blank { All IsBlank (map (λ b. seen (b.vtable, b.value)) rack.old.boxes.items) }
    requires honest { IsTrue honest → IsHonest (told_pairs files.now)
        (map (λ b. seen (b.vtable, b.value)) rack.old.boxes.items) }
    ensures { All IsBlank (map (λ b. seen (b.vtable, b.value)) rack.new.boxes.items) }
{
    let mut out = sink_of(rt.alloc(), setting.out)?;
    let mut err = sink_of(rt.alloc(), setting.err)?;
    let status = status_by(rt, words, rack, files, honest, &mut out, &mut err);
    Ok(Outcome { status, out, err })
}

// A sink that takes so many bytes in a call, and in all.
fn sink_of(alloc: Global, (step, room): (usize, usize)) -> Result<MemSink, Memory> {
    MemSink::new(alloc, if step == 0 { 1 } else { step }, room)
}

// A letter for each box of a rack, and a bar.
fn show_kinds(kinds: &mut String, rack: &Rack) -> Result<(), Fail> {
    for b in rack.boxes.as_slice() {
        kinds.push(letter_of(b.kind()))?;
    }
    kinds.push('|')?;
    Ok(())
}

fn letter_of(kind: Kind) -> char {
    match kind {
        Kind::Csv => 's',
        Kind::List => 't',
        Kind::Numbers => 'n',
        Kind::Filter => 'f',
        Kind::Expression => 'e',
        Kind::Resize => 'r',
        Kind::PartialAggregate => 'p',
        Kind::MergeAggregate => 'g',
        Kind::HashJoin => 'j',
        Kind::Sort => 'o',
        Kind::MergeSorted => 'm',
        Kind::Limit => 'l',
        Kind::Collect => 'c',
    }
}
