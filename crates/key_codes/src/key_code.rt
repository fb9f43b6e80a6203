ghost use Rattle.std.specs.Prelude.{◌≡◌, ◌<◌, [], fold, length, map, OnOk, IfOk, All};
ghost use Rattle.key_codes.specs.Keys.{HasKey, IsSeenFor, codes_in, places_from, plain_types_at, row_code, same_code, with_key};

use crate::places::{bits_of, code_places, number_places, text_places, texts_of, whole_places};
use chunk_data::{Chunk, ColumnType, Memory, type_at};
use indexmap::IndexSet;
use std::alloc::Global;

/// The keys so far, each by its code, in order of first appearance.
#[derive(Drop)]
pub enum SeenKeys {
    /// Without columns all rows have one key, which is there once a row came.
    Whole(bool),
    /// A key of one number, by its bits, and the place of NULL once it came.
    Numbers(IndexSet<u64>, Option<usize>),
    /// A key of one text, by its bytes, and the place of NULL once it came.
    Texts(IndexSet<Vec<u8>>, Option<usize>),
    /// A key of several values, by the bytes of all.
    Bytes(IndexSet<Vec<u8>>),
}

impl SeenKeys {
    /// No keys, of the columns at the places.
    pub fn new(alloc: Global, types: &[ColumnType], places: &[usize]) -> SeenKeys
        ensures none { codes_in result ≡ [] }
        ensures form { IsSeenFor (plain_types_at types.now places.now) result }
    {
        if places.len() == 0 {
            return SeenKeys::Whole(false);
        }
        if places.len() != 1 {
            return SeenKeys::Bytes(IndexSet::new(alloc));
        }
        if type_at(types, places[0]).is_text() {
            return SeenKeys::Texts(IndexSet::new(alloc), None);
        }
        SeenKeys::Numbers(IndexSet::new(alloc), None)
    }

    /// How many there are.
    pub fn len(&self) -> usize
        ensures { result ≡ length (codes_in self.now) }
    {
        match self {
            SeenKeys::Whole(some) => *some as usize,
            SeenKeys::Numbers(numbers, null) => numbers.len() + null.is_some() as usize,
            SeenKeys::Texts(texts, null) => texts.len() + null.is_some() as usize,
            SeenKeys::Bytes(codes) => codes.len(),
        }
    }
}

/// The place of each row's key, its values at the places, where NULL is a value like any other. New
/// keys go to the end where they are added; else the place of one that isn't there is the number of
/// those that are.
pub fn find_places(
    seen: &mut SeenKeys,
    alloc: Global,
    adds: bool,
    places: &[usize],
    chunk: &Chunk,
) -> Result<Vec<usize>, Memory>
    requires within { All (λ c. c < length chunk.now.types) places.now }
    requires form { IsSeenFor (plain_types_at chunk.now.types places.now) seen.old }
    ensures places { IfOk result
        (λ v. v.items ≡ places_from adds same_code (codes_in seen.old)
        (map (row_code places.now) chunk.now.rows)) }
    ensures seen { OnOk result
        (codes_in seen.new ≡ fold (with_key adds same_code) (codes_in seen.old)
        (map (row_code places.now) chunk.now.rows)) }
    ensures cells { OnOk result (All (HasKey chunk.now.types places.now) chunk.now.rows) }
    ensures form { OnOk result (IsSeenFor (plain_types_at chunk.now.types places.now) seen.new) }
{
    match seen {
        SeenKeys::Whole(some) => whole_places(some, alloc, adds, chunk.rows()),
        SeenKeys::Numbers(numbers, null) => {
            let column = chunk.column(places[0]);
            let bits = bits_of(alloc, column)?;
            let validity = column.validity();
            number_places(numbers, null, alloc, adds, bits.as_slice(), validity)
        }
        SeenKeys::Texts(texts, null) => {
            let column = chunk.column(places[0]);
            text_places(
                texts,
                null,
                alloc,
                adds,
                texts_of(column),
                column.validity(),
            )
        }
        SeenKeys::Bytes(codes) => code_places(codes, alloc, adds, places, chunk),
    }
}
