ghost use Rattle.std.specs.Prelude.{◌≡◌, ◌↔◌, IsTrue};
ghost use Rattle.proc_api.specs.kinds.Sort.{AreKeysWithin, FitsOrder};

use chunk_data::{Chunk, ColumnType};
use query_model::processor_spec::SortSpec;

/// Whether a chunk has the types of the order, and these have the columns of its keys.
pub(crate) fn fits_order(order: &SortSpec, chunk: &Chunk) -> bool
    ensures { IsTrue result ↔ FitsOrder order.now chunk.now.types }
{
    keys_within(order) && are_types(chunk.types().as_slice(), order.types.as_slice())
}

// Whether each key is of one of the columns.
fn keys_within(order: &SortSpec) -> bool
    ensures { IsTrue result ↔ AreKeysWithin order.now }
{
    order
        .keys
        .as_slice()
        .iter()
        .all(|key| (key.column as usize) < order.types.len())
}

// Whether the types are those.
fn are_types(types: &[ColumnType], others: &[ColumnType]) -> bool
    ensures { IsTrue result ↔ (types.now ≡ others.now) }
{
    types == others
}
