ghost use Rattle.std.specs.Prelude.{◌≡◌};
ghost use Rattle.proc_shell.specs.Names.{chunk_list, chunk_rows, held_option, held_unworked, length};

use chunk_data::Chunk;

/// What lies between the inputs and the outputs: nothing, a chunk of an input that isn't worked
/// yet, or one that can be pushed.
#[derive(Drop)]
pub enum Held {
    Nothing,
    Unworked(usize, Chunk),
    Made(Chunk),
}

/// A chunk that can be pushed, if it has rows.
pub(crate) fn held_of(made: Option<Chunk>) -> Held
    ensures { result ≡ held_option made }
{
    match made {
        Some(chunk) => {
            if chunk.rows() == 0 {
                Held::Nothing
            } else {
                Held::Made(chunk)
            }
        }
        None => Held::Nothing,
    }
}

/// How many rows are held that aren't worked yet.
pub(crate) fn unworked_rows(held: &Held) -> usize
    ensures { result ≡ length (chunk_rows (held_unworked held.now)) }
{
    match held {
        Held::Unworked(_, chunk) => chunk.rows(),
        _ => 0,
    }
}

/// The chunk that isn't worked yet.
pub(crate) fn unworked_of(held: Held) -> Option<Chunk>
    ensures { chunk_list result ≡ held_unworked held }
{
    match held {
        Held::Unworked(_, chunk) => Some(chunk),
        _ => None,
    }
}
