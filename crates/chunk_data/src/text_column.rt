ghost use Rattle.std.specs.Prelude.{◌≡◌, ℕ, ◌+◌, ◌≤◌, ◌<◌, ◌++◌, ◌∷◌, List, [], length, ◌^◌, map, take, drop, ◌-◌, slice_index, slice_index_or, OnOk, OnErr, IfOk, All, slice_range, vec_len, vec_capacity};
ghost use Rattle.chunk_data.specs.Names.{kept, cut, AreEnds};

use crate::compact::{copy_items, remove_front};
use crate::lists::{Bytes, Memory};
use std::alloc::Global;
use std::marker::Model;

/// A column of texts: the bytes of all, and where each ends.
#[derive(Debug, Drop)]
pub struct Texts {
    bytes: Vec<u8>,
    ends: Vec<usize>,
}

impl Model for Texts {
    ghost use Rattle.std.specs.Prelude.{ℕ, List, length};
    ghost use Rattle.chunk_data.specs.Texts.{cut, AreEnds};

    ghost Value = { List (List ℕ) };

    ghost view = { λ t. cut t.bytes.items 0 t.ends.items };

    ghost invariant = { λ t. AreEnds 0 t.ends.items (length t.bytes.items) };
}

#[tactic(auto, using(crate::proofs::Cuts::cuts))]
impl Texts {
    /// No texts; it takes no memory.
    pub fn new(alloc: Global) -> Self
        ensures { result ≡ [] }
    {
        Texts {
            bytes: Vec::new(alloc),
            ends: Vec::new(alloc),
        }
    }

    /// How many texts there are.
    pub fn len(&self) -> usize
        ensures { result ≡ length self.now }
    {
        self.ends.len()
    }

    /// Makes room for n more texts, without their bytes; the texts stay.
    pub fn reserve(&mut self, n: usize) -> Result<(), Memory>
        ensures { self.new ≡ self.old }
    {
        self.ends.try_reserve(n)?;
        Ok(())
    }

    /// Adds the text at the end; after an error nothing has changed.
    pub fn push(&mut self, text: &[u8]) -> Result<(), Memory>
        ensures ok { OnOk result (self.new ≡ self.old ++ text.now ∷ []) }
        ensures err { OnErr result (self.new ≡ self.old) }
    {
        self.ends.try_reserve(1)?;
        self.bytes.extend_from_slice(text)?;
        self.ends.push(self.bytes.len())?;
        Ok(())
    }

    /// Text i.
    pub fn get(&self, i: usize) -> &[u8]
        requires { i < length self.now }
        ensures { result.now ≡ slice_index_or self.now i [] }
    {
        text_at(self.bytes.as_slice(), self.ends.as_slice(), i)
    }

    /// Exactly the texts whose place in the mask has true stay, in order.
    pub fn keep(&mut self, mask: &[bool])
        requires { length mask.now ≡ length self.old }
        ensures { self.new ≡ kept mask.now self.old }
    {
        keep_texts(&mut self.bytes, &mut self.ends, mask);
    }

    /// The first n stay.
    pub fn truncate(&mut self, n: usize)
        ensures { self.new ≡ take n self.old }
    {
        if self.ends.len() <= n {
            return;
        }
        let size = start_of(self.ends.as_slice(), n);
        self.bytes.truncate(size);
        self.ends.truncate(n);
    }

    /// What follows the first n stays.
    pub fn remove_front(&mut self, n: usize)
        ensures { self.new ≡ drop n self.old }
    {
        if self.ends.len() <= n {
            self.bytes.clear();
            self.ends.clear();
            return;
        }
        let start = start_of(self.ends.as_slice(), n);
        remove_front(&mut self.bytes, start);
        remove_front(&mut self.ends, n);
        shift_down(&mut self.ends, start);
    }

    /// So many of the other's texts, from a place on, after its own; after an error nothing has
    /// changed.
    pub fn append_range(&mut self, other: &Texts, from: usize, n: usize) -> Result<(), Memory>
        requires { from + n ≤ length other.now }
        ensures ok { OnOk result (self.new ≡ self.old ++ take n (drop from other.now)) }
        ensures err { OnErr result (self.new ≡ self.old) }
    {
        self.ends.try_reserve(n)?;
        let ends = other.ends.as_slice();
        let by = self.bytes.len();
        self.bytes
            .extend_from_slice(bytes_of(other.bytes.as_slice(), ends, from, n))?;
        let start = start_of(ends, from);
        push_moved(&mut self.ends, &ends[from..from + n], start, by);
        Ok(())
    }

    /// The same texts.
    pub fn copy(&self) -> Result<Texts, Memory>
        ensures { IfOk result (λ t. t ≡ self.now) }
    {
        Ok(Texts {
            bytes: copy_items(&self.bytes)?,
            ends: copy_items(&self.ends)?,
        })
    }

    /// A copy of text i.
    pub fn copy_at(&self, i: usize) -> Result<Bytes, Memory>
        requires { i < length self.now }
        ensures { IfOk result (λ b. b ≡ slice_index_or self.now i []) }
    {
        Bytes::from_slice(*self.bytes.allocator(), self.get(i))
    }

    /// The texts at the places, in the places' order.
    pub fn gather(&self, places: &[usize]) -> Result<Texts, Memory>
        requires { All (λ p. p < length self.now) places.now }
        ensures { IfOk result (λ t. t ≡ map (λ p. slice_index_or self.now p []) places.now) }
    {
        let mut texts = Texts::new(*self.bytes.allocator());
        texts.reserve(places.len())?;
        for place in places {
            texts.push(self.get(*place))?;
        }
        Ok(texts)
    }
}

fn shift_down(ends: &mut Vec<usize>, by: usize)
    requires { All (λ end. by ≤ end) ends.old.items }
    ensures { ends.new.items ≡ map (λ end. end - by) ends.old.items }
{
    for i in 0..ends.len() {
        ends[i] -= by;
    }
}

// Each end of the others, counted from `start` and moved up, after the ends; room was reserved.
fn push_moved(ends: &mut Vec<usize>, others: &[usize], start: usize, by: usize)
    requires room { vec_len ends.old + length others.now ≤ vec_capacity ends.old }
    requires above { All (λ end. start ≤ end) others.now }
    requires fits { All (λ end. by + (end - start) < 2 ^ 64) others.now }
    ensures { ends.new.items ≡ ends.old.items ++ map (λ end. by + (end - start)) others.now }
{
    for end in others {
        let _ = ends.push(by + (*end - start));
    }
}

fn keep_texts(bytes: &mut Vec<u8>, ends: &mut Vec<usize>, mask: &[bool])
    requires ends { AreEnds 0 ends.old.items (length bytes.old.items) }
    requires long { length mask.now ≡ length ends.old.items }
    ensures ends { AreEnds 0 ends.new.items (length bytes.new.items) }
    ensures kept { cut bytes.new.items 0 ends.new.items
        ≡ kept mask.now (cut bytes.old.items 0 ends.old.items) }
{
    let mut written = 0;
    let mut count = 0;
    let mut start = 0;
    for i in 0..ends.len() {
        let end = ends[i];
        if mask[i] {
            bytes.copy_within(start..end, written);
            written += end - start;
            ends[count] = written;
            count += 1;
        }
        start = end;
    }
    bytes.truncate(written);
    ends.truncate(count);
}

fn start_of(ends: &[usize], i: usize) -> usize
    requires { i ≤ length ends.now }
    ensures { result ≡ slice_index (0 ∷ ends.now) i }
{
    if i == 0 { 0 } else { ends[i - 1] }
}

#[tactic(auto, using(crate::proofs::Cuts::cuts))]
fn bytes_of<'a>(bytes: &'a [u8], ends: &[usize], from: usize, n: usize) -> &'a [u8]
    requires ends { AreEnds 0 ends.now (length bytes.now) }
    requires in_range { from + n ≤ length ends.now }
    ensures { result.now ≡ slice_range bytes.now (slice_index (0 ∷ ends.now) from)
        (slice_index (0 ∷ ends.now) (from + n)) }
{
    let start = start_of(ends, from);
    let end = start_of(ends, from + n);
    &bytes[start..end]
}

#[tactic(auto, using(crate::proofs::Cuts::cuts))]
fn text_at<'a>(bytes: &'a [u8], ends: &[usize], i: usize) -> &'a [u8]
    requires ends { AreEnds 0 ends.now (length bytes.now) }
    requires in_range { i < length ends.now }
    ensures { result.now ≡ slice_index_or (cut bytes.now 0 ends.now) i [] }
{
    let start = start_of(ends, i);
    let end = ends[i];
    &bytes[start..end]
}
