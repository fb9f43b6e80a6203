// The first bad place of a part.

/// What is wrong with a record: the field that spells no value, from 1, or the number of its fields
/// where that is not the number of columns.
#[derive(Clone, Copy, Debug, PartialEq, Eq)]
pub enum BadField {
    Column(u32),
    Fields(u64),
}

/// The first record that is not good. Records are counted from 1; a header that is passed over is
/// not counted.
#[derive(Clone, Copy, Debug, PartialEq, Eq)]
pub struct BadPlace {
    pub row: u64,
    pub field: BadField,
}
