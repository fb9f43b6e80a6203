use crate::group_table::GroupTable;
use chunk_data::Chunk;

/// How far a processor that groups has come.
#[derive(Drop)]
pub(crate) enum Phase {
    /// It folds rows into their groups.
    Gathering(GroupTable),
    /// It drops each chunk, since none fits a spec that sums texts.
    Dropping,
    /// Its inputs have ended.
    Ended(GroupTable),
    /// They have ended, and no chunk fitted.
    Empty,
    /// So many of the chunk's rows are made.
    Giving(Chunk, usize),
    /// It wanted memory, and isn't asked again.
    Failed,
}
