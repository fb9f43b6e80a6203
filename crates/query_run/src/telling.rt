ghost use Rattle.std.specs.Prelude.{◌≡◌, ◌≤◌, ◌++◌, ◌∷◌, [], flat_map};
ghost use Rattle.query_run.specs.Names.{CountIncreased, kind_name, query_line, refused_line, place_words, field_words, plan_line, failure_line, piece_bytes, TellsLine, Writes};
ghost use Rattle.query_run.specs.declared.ending.PlanFailure.TheVariants as plan;

use crate::ending::{Failure, PartName, PlanFailure, Refused};
use itoa::Buffer;
use outside_io::{Sink, WriteFault, write_all};
use proc_api::{WorkFault, kind_row};
use query_model::places::BadField;
use query_model::processor_spec::Kind;
use query_model::query::Refusal;
use sql_text::ParseRefusal;

/// A piece of a line.
#[derive(Clone, Copy)]
pub(crate) enum LinePiece<'a> {
    Text(&'a [u8]),
    /// In decimal.
    Number(u64),
}

/// The pieces of a line, in order; the last ones are empty where it has fewer.
type Line<'a> = [LinePiece<'a>; 9];

/// A word of a line, and what stands behind it.
type Word = (&'static [u8], LinePiece<'static>);

const OUT_OF_MEMORY: &[u8] = b"qrun: out of memory";

const NO_WORD: Word = (b"", LinePiece::Text(b""));

/// Writes the pieces one after another, until the sink fails.
pub(crate) fn tell<E: Sink>(err: &mut E, pieces: &[LinePiece<'_>])
    ensures line { TellsLine (flat_map piece_bytes pieces.now)
        (E.written err.old) (E.written err.new)
        (CountIncreased (E.faults err.old) (E.faults err.new)) }
    ensures faults_kept { E.faults err.old ≤ E.faults err.new }
{
    let _ = write_pieces(err, pieces);
}

fn write_pieces<E: Sink>(err: &mut E, pieces: &[LinePiece<'_>]) -> Result<(), WriteFault>
    ensures line { Writes (flat_map piece_bytes pieces.now)
        (E.written err.old) (E.written err.new)
        (CountIncreased (E.faults err.old) (E.faults err.new)) result }
    ensures faults_kept { E.faults err.old ≤ E.faults err.new }
{
    for i in 0..pieces.len() {
        match write_piece(err, pieces[i]) {
            Ok(()) => {}
            Err(fault) => return Err(fault),
        }
    }
    Ok(())
}

fn write_piece<E: Sink>(err: &mut E, piece: LinePiece<'_>) -> Result<(), WriteFault>
    ensures line { Writes (piece_bytes piece.entry)
        (E.written err.old) (E.written err.new)
        (CountIncreased (E.faults err.old) (E.faults err.new)) result }
    ensures faults_kept { E.faults err.old ≤ E.faults err.new }
{
    match piece {
        LinePiece::Text(text) => write_all(err, text),
        LinePiece::Number(number) => {
            let mut digits = Buffer::new();
            write_all(err, digits.format(number).as_bytes())
        }
    }
}

/// The line of a failure and its end.
pub(crate) fn failure_pieces(failure: &Failure) -> Line<'_>
    ensures { flat_map piece_bytes result ≡ failure_line failure.now ++ 10 ∷ [] }
{
    match failure {
        Failure::Usage => named(
            b"qrun: usage: qrun --query QUERY [--tables TABLES] [--threads N] [--chunk N]",
            b" [--header]",
        ),
        Failure::Refused(refused) => refused_pieces(refused),
        Failure::Plan(failure) => plan_pieces(failure),
        Failure::Memory => named(OUT_OF_MEMORY, b""),
    }
}

/// The line of a front and a name, and its end.
pub(crate) fn named<'a>(front: &'static [u8], name: &'a [u8]) -> Line<'a>
    ensures { flat_map piece_bytes result ≡ front.now ++ name.now ++ 10 ∷ [] }
{
    line(front, name, NO_WORD, NO_WORD, NO_WORD)
}

fn line<'a>(front: &'static [u8], name: &'a [u8], a: Word, b: Word, c: Word) -> Line<'a>
    ensures { flat_map piece_bytes result ≡ front.now ++ name.now
        ++ (a.entry.0.now ++ piece_bytes a.entry.1) ++ (b.entry.0.now ++ piece_bytes b.entry.1)
        ++ (c.entry.0.now ++ piece_bytes c.entry.1) ++ 10 ∷ [] }
{
    [
        LinePiece::Text(front),
        LinePiece::Text(name),
        LinePiece::Text(a.0),
        a.1,
        LinePiece::Text(b.0),
        b.1,
        LinePiece::Text(c.0),
        c.1,
        LinePiece::Text(b"\n"),
    ]
}

fn refused_pieces(refused: &Refused) -> Line<'_>
    ensures { flat_map piece_bytes result ≡ refused_line refused.now ++ 10 ∷ [] }
{
    match refused {
        Refused::Text(ParseRefusal::TooLong) => named(b"qrun: refused: TooLong", b""),
        Refused::Text(ParseRefusal::Syntax) => named(b"qrun: refused: Syntax", b""),
        Refused::Text(ParseRefusal::NumberTooLarge) => {
            named(b"qrun: refused: NumberTooLarge", b"")
        }
        Refused::Text(ParseRefusal::TooComplex) => named(b"qrun: refused: TooComplex", b""),
        Refused::Text(ParseRefusal::Memory) => named(OUT_OF_MEMORY, b""),
        Refused::Query(refusal) => {
            let (front, name) = query_line(refusal);
            named(front, name)
        }
    }
}

fn plan_pieces(failure: &PlanFailure) -> Line<'_>
    ensures { flat_map piece_bytes result ≡ plan_line failure.now ++ 10 ∷ [] }
{
    match failure {
        PlanFailure::Paths(name, count) => line(
            b"qrun: limit: paths of ",
            name.as_slice(),
            (b" are ", LinePiece::Number(*count)),
            (b"", LinePiece::Text(b", at most 32")),
            NO_WORD,
        ),
        PlanFailure::Stock(short) => line(
            b"qrun: limit: boxes of kind ",
            name_of(&short.kind),
            (b" needed ", LinePiece::Number(short.needed as u64)),
            (b", rack has ", LinePiece::Number(short.there as u64)),
            NO_WORD,
        ),
        PlanFailure::Part(name, fault) => part_pieces(name, *fault),
        PlanFailure::Unlawful(kind) => named(b"qrun: limit: unlawful box of kind ", name_of(kind)),
        PlanFailure::Memory => named(OUT_OF_MEMORY, b""),
    }
}

fn part_pieces(name: &PartName, fault: WorkFault) -> Line<'_>
    ensures { flat_map piece_bytes result ≡ plan_line (plan.Part name.now fault) ++ 10 ∷ [] }
{
    let table = name.table.as_slice();
    let part = place_words(name.part);
    match fault {
        WorkFault::Bad(place) => line(
            b"qrun: bad data: table ",
            table,
            part,
            (b" row ", LinePiece::Number(place.row)),
            field_words(place.field),
        ),
        WorkFault::BadList(number) => line(
            b"qrun: bad list: table ",
            table,
            (b" line ", LinePiece::Number(number)),
            NO_WORD,
            NO_WORD,
        ),
        WorkFault::Read => line(b"qrun: read fault: table ", table, part, NO_WORD, NO_WORD),
        WorkFault::Stalled => line(b"qrun: stalled: table ", table, part, NO_WORD, NO_WORD),
        WorkFault::TooLong => line(
            b"qrun: limit: bytes of table ",
            table,
            part,
            (b"", LinePiece::Text(b", at most 1073741824")),
            NO_WORD,
        ),
        WorkFault::Memory => named(OUT_OF_MEMORY, b""),
    }
}

/// A part of a table, or its list.
fn place_words(part: u32) -> Word
    ensures { result.0.now ++ piece_bytes result.1 ≡ place_words part }
{
    if part == 0 {
        (b" list", LinePiece::Text(b""))
    } else {
        (b" part ", LinePiece::Number(part as u64))
    }
}

fn field_words(field: BadField) -> Word
    ensures { result.0.now ++ piece_bytes result.1 ≡ field_words field }
{
    match field {
        BadField::Column(column) => (b" column ", LinePiece::Number(u64::from(column))),
        BadField::Fields(fields) => (b" fields ", LinePiece::Number(fields)),
    }
}

// The line's front, and the name that the refusal carries.
fn query_line(refusal: &Refusal) -> (&'static [u8], &[u8])
    ensures { result.0.now ++ result.1.now ≡ query_line refusal.now }
{
    match refusal {
        Refusal::UnknownTable(name) => (b"qrun: refused: UnknownTable ", name.as_slice()),
        Refusal::UnknownColumn(name) => (b"qrun: refused: UnknownColumn ", name.as_slice()),
        Refusal::AmbiguousColumn(name) => (b"qrun: refused: AmbiguousColumn ", name.as_slice()),
        Refusal::BadJoinKey => (b"qrun: refused: BadJoinKey", b""),
        Refusal::TypeMismatch => (b"qrun: refused: TypeMismatch", b""),
        Refusal::NotGrouped(name) => (b"qrun: refused: NotGrouped ", name.as_slice()),
        Refusal::BadOrderKey(name) => (b"qrun: refused: BadOrderKey ", name.as_slice()),
        Refusal::TooWide => (b"qrun: refused: TooWide", b""),
        Refusal::Memory => (OUT_OF_MEMORY, b""),
    }
}

// A kind's name, at the lifetime of the line that has it.
fn name_of(kind: &Kind) -> &[u8]
    ensures { result.now ≡ kind_name kind.now }
{
    kind_row(*kind).name
}
