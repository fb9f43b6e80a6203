// Where fields and lines end, and the bytes of a field.
ghost use Rattle.std.specs.Prelude.{◌≡◌, [], ◌+◌, ◌<◌, ◌≤◌, true, false, length, map, drop, IfOk};
ghost use Rattle.std.specs.List.{prefix_len};
ghost use Rattle.std.specs.Simd.Lanes.{mask_l};
ghost use Rattle.csv_rows.specs.Places.{starts_with, at_mark, no_mark, no_quote, bytes_between, FieldUpTo, EndsRecord, SkipsEnds};

use memchr::memchr;
use std::alloc::AllocError;
use std::simd::prelude::*;

fn is_mark(c: u8) -> bool
    ensures { result ≡ Rattle.csv_rows.specs.Places.is_mark c }
{
    (c == b',') | ((c == b'\n') | (c == b'\r'))
}

#[inline(always)]
fn marks(v: u8x16) -> u64
    ensures { result ≡ mask_l (map Rattle.csv_rows.specs.Places.is_mark v) }
{
    (v.simd_eq(u8x16::splat(b','))
        | v.simd_eq(u8x16::splat(b'\n'))
        | v.simd_eq(u8x16::splat(b'\r'))).to_bitmask()
}

// The first mark from a place on, or the end: 16 bytes at a time, and the last ones byte by byte.
#[inline(always)]
fn mark_from(bytes: &[u8], at: usize) -> usize
    requires { at ≤ length bytes.now }
    ensures run { result ≡ at + prefix_len no_mark (drop at bytes.now) }
    ensures within { result ≤ length bytes.now }
{
    let mut i = at;
    'lanes: while bytes.len() - i >= 16 {
        let found = marks(u8x16::from_slice(&bytes[i..]));
        if found != 0 {
            return i + found.trailing_zeros() as usize;
        }
        i += 16;
    }
    for j in i..bytes.len() {
        if is_mark(bytes[j]) {
            return j;
        }
    }
    bytes.len()
}

// Where the field at a place ends, which has no quote in front.
#[inline(always)]
fn plain_end(bytes: &[u8], at: usize) -> usize
    requires within { at ≤ length bytes.now }
    requires plain { starts_with 34 (drop at bytes.now) ≡ false }
    ensures { FieldUpTo bytes.now at (bytes_between bytes.now at result) result }
{
    mark_from(bytes, at)
}

// The next quote from a place on, or the end.
fn next_quote(bytes: &[u8], at: usize) -> usize
    requires { at ≤ length bytes.now }
    ensures run { result ≡ at + prefix_len no_quote (drop at bytes.now) }
    ensures within { result ≤ length bytes.now }
{
    match memchr(b'"', &bytes[at..]) {
        Some(found) => at + found,
        None => bytes.len(),
    }
}

// Where the field at a place ends, which begins with a quote; its bytes are put into `field`, which
// is empty. Behind the closing quote the rest is read as if it had no quotes.
fn quoted_end(bytes: &[u8], at: usize, field: &mut Vec<u8>) -> Result<usize, AllocError>
    requires within { at < length bytes.now }
    requires quote { starts_with 34 (drop at bytes.now) ≡ true }
    requires empty { field.old.items ≡ [] }
    ensures { IfOk result (λ end. FieldUpTo bytes.now at field.new.items end) }
{
    let mut i = at + 1;
    'runs: loop {
        let quote = next_quote(bytes, i);
        field.extend_from_slice(&bytes[i..quote])?;
        if quote == bytes.len() {
            return Ok(quote);
        }
        if !byte_at(bytes, quote + 1, b'"') {
            let end = mark_from(bytes, quote + 1);
            field.extend_from_slice(&bytes[quote + 1..end])?;
            return Ok(end);
        }
        field.push(b'"')?;
        i = quote + 2;
    }
}

#[inline(always)]
pub(crate) fn byte_at(bytes: &[u8], at: usize, byte: u8) -> bool
    requires { at ≤ length bytes.now }
    ensures { result ≡ starts_with byte (drop at bytes.now) }
{
    at < bytes.len() && bytes[at] == byte
}

/// The bytes of the field at a place, and where it ends. One with quotes is put together in
/// `field`.
#[inline(always)]
pub(crate) fn field_at<'a>(
    bytes: &'a [u8],
    at: usize,
    field: &'a mut Vec<u8>,
) -> Result<(&'a [u8], usize), AllocError>
    requires { at ≤ length bytes.now }
    ensures { IfOk result (λ p. FieldUpTo bytes.now at p.0.now p.1) }
{
    if !byte_at(bytes, at, b'"') {
        let end = plain_end(bytes, at);
        return Ok((&bytes[at..end], end));
    }
    field.clear();
    let end = quoted_end(bytes, at, field)?;
    Ok((field.as_slice(), end))
}

fn is_line_end(c: u8) -> bool
    ensures { result ≡ Rattle.csv_rows.specs.Places.is_line_end c }
{
    (c == b'\n') | (c == b'\r')
}

/// The first place from here on where no line ends: an empty line is no record.
#[tactic(auto, using(crate::proofs::FieldPlaces::skip_more))]
pub(crate) fn skip_ends(bytes: &[u8], at: usize) -> usize
    requires { at ≤ length bytes.now }
    ensures { SkipsEnds bytes.now at result }
{
    for i in at..bytes.len() {
        if !is_line_end(bytes[i]) {
            return i;
        }
    }
    bytes.len()
}

/// Where the record behind the end of a line begins.
#[tactic(auto, using(crate::proofs::FieldPlaces::line_ends))]
pub(crate) fn line_end(bytes: &[u8], at: usize) -> usize
    requires within { at ≤ length bytes.now }
    requires mark { at_mark (drop at bytes.now) ≡ true }
    requires comma { starts_with 44 (drop at bytes.now) ≡ false }
    ensures { EndsRecord bytes.now at [] result }
{
    if at < bytes.len() {
        skip_ends(bytes, at + 1)
    } else {
        at
    }
}
