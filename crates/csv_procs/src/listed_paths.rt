ghost use Rattle.std.specs.Prelude.{◌<◌, ◌≡◌};
ghost use Rattle.csv_procs.specs.Names.{GivesLeft, IfOk, IsNextOfList, None, OnErr, Some, bad_line_in, false, left_rows, length, paths_in};

use crate::file_state::ListedPaths;
use crate::list_lines::read_lines;
use chunk_data::{Chunk, List, Memory};
use proc_shell::Offer;
use std::alloc::Global;
use std::mem::replace;

/// Reads a list's file. The list has grown by nothing, and passed nothing on.
pub(crate) fn read_list(alloc: Global, text: &[u8]) -> Result<ListedPaths, Memory>
    ensures paths { IfOk result (λ l. l.paths ≡ paths_in (Some text.now)) }
    ensures bad_line { IfOk result (λ l. l.bad_line ≡ bad_line_in (Some text.now)) }
    ensures ungrown { IfOk result (λ l. l.grown ≡ false) }
    ensures nothing_left { IfOk result (λ l. l.left ≡ None) }
{
    let mut paths = Vec::new(alloc);
    let bad_line = read_lines(alloc, text, &mut paths)?;
    if bad_line.is_some() {
        paths = Vec::new(alloc);
    }
    Ok(ListedPaths {
        paths: List::from_vec(paths),
        bad_line,
        grown: false,
        left: None,
    })
}

impl ListedPaths {
    /// How many rows of a chunk are left.
    pub(crate) fn rows_left(&self) -> usize
        ensures { result ≡ length (left_rows self.now) }
    {
        match &self.left {
            Some(chunk) => chunk.rows(),
            None => 0,
        }
    }

    /// What comes next.
    pub(crate) fn next(&self) -> Offer
        ensures { IsNextOfList self.now result }
    {
        if self.bad_line.is_some() {
            return Offer::Record;
        }
        if self.rows_left() > 0 {
            return Offer::Rows;
        }
        if !self.grown && self.paths.len() > 0 {
            return Offer::Grow;
        }
        Offer::Wants
    }

    /// Gives the first rows that are left.
    pub(crate) fn give_left(&mut self, most: usize) -> Result<Option<Chunk>, Memory>
        requires { 0 < most }
        ensures paths { self.new.paths ≡ self.old.paths }
        ensures bad_line { self.new.bad_line ≡ self.old.bad_line }
        ensures grown { self.new.grown ≡ self.old.grown }
        ensures gives { IfOk result (GivesLeft most self.old.left self.new.left) }
        ensures lost { OnErr result (self.new.left ≡ None) }
    {
        let Some(mut chunk) = replace(&mut self.left, None) else {
            return Ok(None);
        };
        if chunk.rows() == 0 {
            return Ok(None);
        }
        if chunk.rows() <= most {
            return Ok(Some(chunk));
        }
        let front = chunk.split_front(most)?;
        self.left = Some(chunk);
        Ok(Some(front))
    }
}
