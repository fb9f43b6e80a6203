ghost use Rattle.std.specs.Prelude.{◌==◌, ◌≡◌, ◌≤◌};
ghost use Rattle.csv_procs.specs.Names.{IfOk, IsLineTaken, None, [], is_path, is_utf8, length, list_all, list_bad_line, list_paths, not, without_cr};

use chunk_data::{Bytes, Memory};
use std::alloc::Global;
use std::str::from_utf8;

/// The most paths of a list.
const MOST_PATHS: usize = 32;

/// The most bytes of a path.
const MOST_PATH_BYTES: usize = 4096;

/// Reads the lines of a list's file up to the bad one, which it gives.
pub(crate) fn read_lines(
    alloc: Global,
    text: &[u8],
    paths: &mut Vec<Bytes>,
) -> Result<Option<u64>, Memory>
    requires { paths.old.items ≡ [] }
    ensures bad_line { IfOk result (λ bad. bad ≡ list_bad_line text.now) }
    ensures paths { IfOk result (λ bad. bad ≡ None → paths.new.items ≡ list_paths text.now) }
    ensures few { length paths.new.items ≤ 32 }
{
    let mut line = Vec::new(alloc);
    let mut number = 1u64;
    for i in 0..text.len() {
        if text[i] != b'\n' {
            line.push(text[i])?;
            continue;
        }
        if !take_line(alloc, without_cr(&line), paths)? {
            return Ok(Some(number));
        }
        line.clear();
        number += 1;
    }
    if !take_line(alloc, without_cr(&line), paths)? {
        return Ok(Some(number));
    }
    Ok(None)
}

// Takes a line, and adds it where it is a path; false where it is bad.
fn take_line(alloc: Global, line: &[u8], paths: &mut Vec<Bytes>) -> Result<bool, Memory>
    requires { length paths.old.items ≤ 32 }
    ensures taken { IfOk result (λ taken. IsLineTaken taken line.now paths.old.items
        paths.new.items) }
    ensures few { length paths.new.items ≤ 32 }
{
    if line.is_empty() {
        return Ok(true);
    }
    if !is_listed_path(line) || paths.len() >= MOST_PATHS {
        return Ok(false);
    }
    paths.push(Bytes::from_slice(alloc, line)?)?;
    Ok(true)
}

// Whether the line is a path.
fn is_listed_path(line: &[u8]) -> bool
    ensures { result ≡ is_path line.now }
{
    !line.is_empty() && line.len() <= MOST_PATH_BYTES && is_text(line) && has_no_zero(line)
}

// Whether the bytes are UTF-8.
fn is_text(line: &[u8]) -> bool
    ensures { result ≡ is_utf8 line.now }
{
    match from_utf8(line) {
        Ok(_text) => true,
        Err(_) => false,
    }
}

fn has_no_zero(line: &[u8]) -> bool
    ensures { result ≡ list_all (λ b. not (b == 0)) line.now }
{
    line.iter().all(|b| *b != 0)
}

// The line without one CR at its end.
fn without_cr(line: &[u8]) -> &[u8]
    ensures { result.now ≡ without_cr line.now }
{
    match line.strip_suffix(b"\r") {
        Some(front) => front,
        None => line,
    }
}
