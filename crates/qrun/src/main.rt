//! `qrun` runs a SELECT query over CSV files and writes the answer's rows as CSV.
#![tactic(auto)]

mod breaker;
mod racks;
mod real_source;
#[cfg(test)]
mod tests;

use crate::breaker::Breaker;
use crate::racks::{LISTS, OTHERS, SOURCES, unload_rack};
use crate::real_source::RealSource;
use chunk_data::Memory;
use csv_procs::{CsvSource, ListSource};
use flow_procs::{Collect, Expression, Filter, Limit, Numbers, Resize};
use outside_io::{RealFiles, RealSink, Sink};
use proc_api::Rack;
use query_model::processor_spec::Kind;
use query_run::run;
use std::alloc::Global;
use std::env;
use std::io::ErrorKind;
use std::process::ExitCode;
use std::sync::Wait;
use std::thread::Threads;

/// The exit status where memory ran out.
const OUT_OF_MEMORY: u8 = 7;

/// The size in bytes of a block that is made and given back at the start. The library of C maps
/// each block from 128 KiB on anew, and gives such blocks and as much free room at the end of its
/// heap back to the system, until a larger block was given back, by which it then goes. So the
/// memory of a chunk serves the next one, and its pages needn't be made again. Larger blocks, such
/// as those that files are read into, are better mapped: they grow without being copied.
const LARGEST_KEPT: usize = 1 << 20;

fn main(rt: HostRuntime) -> ExitCode {
    keep_freed_blocks(rt.alloc());
    match status_of(&rt, &rt) {
        Ok(status) => ExitCode::from(status),
        Err(Memory) => {
            let _ = eprintln!(rt; "qrun: out of memory");
            ExitCode::from(OUT_OF_MEMORY)
        }
    }
}

// Where there is no room for the block nothing is lost but speed.
fn keep_freed_blocks(alloc: Global) {
    let _ = Vec::<u8>::with_capacity(alloc, LARGEST_KEPT);
}

fn status_of<R: AllocGlobal + Threads + Wait + Sync>(
    rt: &HostRuntime,
    threads: &R,
) -> Result<u8, Memory> {
    let words = words_of(rt)?;
    run_words(rt, threads, words.as_slice())
}

// The words after the program's name. Words that aren't UTF-8 are no command, as no words are.
fn words_of(rt: &HostRuntime) -> Result<Vec<String>, Memory> {
    let mut words = Vec::new(rt.alloc());
    match env::args(rt) {
        Ok(args) => {
            for word in args.skip(1) {
                words.push(word)?;
            }
            Ok(words)
        }
        Err(error) => match error.kind() {
            ErrorKind::OutOfMemory => Err(Memory),
            _ => Ok(words),
        },
    }
}

// Runs the words by the boxes of the standard rack, over files of the system. The boxes are made
// here, where they lie: a function that hands out a box that it made could say anything of it.
fn run_words<R: AllocGlobal + Threads + Wait + Sync>(
    rt: &HostRuntime,
    threads: &R,
    words: &[String],
) -> Result<u8, Memory> {
    let alloc = rt.alloc();
    let mut rack = Rack::new(alloc);
    for place in 0..SOURCES + LISTS {
        let reader = RealFiles::new(*rt);
        let source = if place < SOURCES {
            RealSource::Part(CsvSource::new(alloc, reader))
        } else {
            RealSource::List(ListSource::new(alloc, reader))
        };
        rack.boxes.push(Box::new(alloc, source)?)?;
    }
    for i in 0..OTHERS.len() {
        let (kind, count) = OTHERS[i];
        for _box in 0..count {
            match kind {
                Kind::Numbers => rack.boxes.push(Box::new(alloc, Numbers::new(alloc))?)?,
                Kind::Filter => rack.boxes.push(Box::new(alloc, Filter::new(alloc))?)?,
                Kind::Expression => rack.boxes.push(Box::new(alloc, Expression::new(alloc))?)?,
                Kind::Resize => rack.boxes.push(Box::new(alloc, Resize::new(alloc))?)?,
                Kind::PartialAggregate
                | Kind::MergeAggregate
                | Kind::HashJoin
                | Kind::Sort
                | Kind::MergeSorted => {
                    if let Some(breaker) = Breaker::of(alloc, kind) {
                        rack.boxes.push(Box::new(alloc, breaker)?)?
                    }
                }
                Kind::Limit => rack.boxes.push(Box::new(alloc, Limit::new(alloc))?)?,
                Kind::Collect => rack.boxes.push(Box::new(alloc, Collect::new(alloc))?)?,
                Kind::Csv | Kind::List => {}
            }
        }
    }
    let mut out = RealSink::new(rt.stdout());
    let mut err = RealSink::new(rt.stderr());
    Ok(run_blank(threads, words, &mut rack, &mut out, &mut err))
}

// That a box is blank is lost where it is made one of any kind, so that each is unloaded first.
fn run_blank<R: AllocGlobal + Threads + Wait + Sync, O: Sink, E: Sink>(
    rt: &R,
    words: &[String],
    rack: &mut Rack,
    out: &mut O,
    err: &mut E,
) -> u8 {
    unload_rack(rack);
    run(rt, words, rack, out, err)
}
