ghost use Rattle.std.specs.Prelude.{◌≡◌, ◌<◌, length, All};
ghost use Rattle.chunk_data.specs.Names.{AgreeOnKey, key_cmp, row_cmp, value_at, row_at};

use crate::row_chunk::Chunk;
use crate::typed_value::SortKey;
use std::cmp::Ordering;

impl Chunk {
    /// How row i compares with the other's row j, by the keys in turn.
    pub fn compare_rows(&self, i: usize, other: &Chunk, j: usize, keys: &[SortKey]) -> Ordering
        requires here { i < length self.now.rows }
        requires there { j < length other.now.rows }
        requires keys { All (AgreeOnKey self.now.types other.now.types) keys.now }
        ensures { result ≡ row_cmp keys.now (row_at self.now.rows i) (row_at other.now.rows j) }
    {
        for key in keys {
            match compare_by(self, i, other, j, key) {
                Ordering::Equal => {}
                unequal => return unequal,
            }
        }
        Ordering::Equal
    }
}

fn compare_by(left: &Chunk, i: usize, right: &Chunk, j: usize, key: &SortKey) -> Ordering
    requires here { i < length left.now.rows }
    requires there { j < length right.now.rows }
    requires key { AgreeOnKey left.now.types right.now.types key.now }
    ensures { result ≡ key_cmp key.now.descending (value_at (row_at left.now.rows i) key.now.column)
        (value_at (row_at right.now.rows j) key.now.column) }
{
    let place = key.column as usize;
    left.column(place)
        .compare(i, right.column(place), j, key.descending)
}
