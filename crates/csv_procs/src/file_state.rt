ghost use Rattle.std.specs.Prelude.{◌≤◌, length};

use chunk_data::{Bytes, Chunk, List};
use csv_rows::RowReader;

/// How far the file of a part or list is.
#[derive(Drop)]
pub(crate) enum FileState {
    /// Its path isn't opened yet.
    Shut,
    /// Its first bytes, as far as they are fetched.
    Fetching(Bytes),
    /// A part is fetched whole, and these are the rows that aren't made yet.
    Rows(RowReader),
    /// A list is fetched whole.
    Paths(ListedPaths),
}

/// What a list's file says, and what became of it.
#[derive(Drop)]
pub(crate) struct ListedPaths {
    /// None where a line is bad.
    pub(crate) paths: List<Bytes>,
    pub(crate) bad_line: Option<u64>,
    /// Whether its graph has grown by its paths.
    pub(crate) grown: bool,
    /// The rest of a chunk that has more rows than one may have.
    pub(crate) left: Option<Chunk>,
    ghost few: { length paths ≤ 32 },
}
