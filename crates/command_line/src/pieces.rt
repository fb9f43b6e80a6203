ghost use Rattle.std.specs.Prelude.{◌≡◌, ℕ, ◌==◌, ◌≤◌, List as Seq, Option, length, IfOk};
ghost use Rattle.std.specs.List.{before_first, after_first, position_or_len};
ghost use Rattle.command_line.specs.Pieces.{pieces_of};

use chunk_data::{List, Memory};
use std::alloc::Global;

/// What a piece of text between separators may be read as.
pub trait Piece: Drop {
    ghost meaning: { Seq ℕ → Option Self };

    /// What the piece means, or none where it means nothing.
    fn read(alloc: Global, text: &[u8]) -> Result<Option<Self>, Memory>
        ensures { IfOk result (λ o. o ≡ meaning text.now) };
}

/// What the pieces between the separators mean, or none where a piece means nothing.
pub fn read_pieces<T: Piece>(
    alloc: Global,
    text: &[u8],
    separator: u8,
) -> Result<Option<List<T>>, Memory>
    ensures { IfOk result (λ o. o ≡ pieces_of T.meaning separator text.now) }
{
    let mut pieces = Vec::new(alloc);
    let mut rest = text;
    loop {
        match T::read(alloc, text_before(rest, separator))? {
            None => return Ok(None),
            Some(piece) => pieces.push(piece)?,
        }
        if place_of(rest, separator) == rest.len() {
            return Ok(Some(List::from_vec(pieces)));
        }
        rest = text_after(rest, separator);
    }
}

/// What stands before the first such byte, or all where there is none.
pub fn text_before(text: &[u8], byte: u8) -> &[u8]
    ensures { result.now ≡ before_first (λ b. b == byte) text.now }
{
    &text[..place_of(text, byte)]
}

/// What follows the first such byte, or nothing where there is none.
pub fn text_after(text: &[u8], byte: u8) -> &[u8]
    ensures { result.now ≡ after_first (λ b. b == byte) text.now }
{
    let place = place_of(text, byte);
    if place < text.len() {
        &text[place + 1..]
    } else {
        &[]
    }
}

/// The index of the first such byte, or the text's length where there is none.
fn place_of(text: &[u8], byte: u8) -> usize
    ensures place { result ≡ position_or_len (λ b. b == byte) text.now }
    ensures within { result ≤ length text.now }
{
    for i in 0..text.len() {
        if text[i] == byte {
            return i;
        }
    }
    text.len()
}
