ghost use Rattle.std.specs.Prelude.{◌≡◌, ℕ, ◌+◌, ◌≤◌, ◌<◌, ◌++◌, ◌∷◌, [], length, map, take, drop, OnOk, OnErr, IfOk, All, count_by};
ghost use Rattle.chunk_data.specs.Names.{FitsTypes, value_at, column_type, values, kept, append_each, value_range, AreLong};

use crate::lists::{List, Memory};
use crate::typed_column::Column;
use crate::typed_value::{ColumnType, Value};
use std::alloc::Global;

pub(crate) fn count_true(mask: &[bool]) -> usize
    ensures { result ≡ count_by (λ m. m) mask.now }
{
    mask.iter().filter(|stays| **stays).count()
}

/// A column without values for each type.
pub fn empty_columns(alloc: Global, kinds: &[ColumnType]) -> Result<Vec<Column>, Memory>
    ensures kinds { IfOk result (λ v. map column_type v.items ≡ kinds.now) }
    ensures empty { IfOk result (λ v. map values v.items ≡ map (λ _. []) kinds.now) }
{
    let mut columns = Vec::new(alloc);
    for kind in kinds {
        columns.push(Column::new(alloc, *kind))?;
    }
    Ok(columns)
}

pub(crate) fn keep_all(columns: &mut [Column], mask: &[bool])
    requires { AreLong (length mask.now) (map values columns.old) }
    ensures kinds { map column_type columns.new ≡ map column_type columns.old }
    ensures kept { map values columns.new ≡ map (kept mask.now) (map values columns.old) }
{
    for i in 0..columns.len() {
        columns[i].keep(mask);
    }
}

/// Leaves of each column the first n values: a reader takes back the fields of a record that it
/// gives up.
pub fn truncate_columns(columns: &mut [Column], n: usize)
    ensures kinds { map column_type columns.new ≡ map column_type columns.old }
    ensures front { map values columns.new ≡ map (take n) (map values columns.old) }
{
    for i in 0..columns.len() {
        columns[i].truncate(n);
    }
}

/// Appends to each column so many values of the one beside it, from a place on; after an error
/// none has changed.
pub(crate) fn append_ranges(
    columns: &mut [Column],
    others: &[Column],
    from: usize,
    n: usize,
    count: usize,
) -> Result<(), Memory>
    requires agree { map column_type others.now ≡ map column_type columns.old }
    requires long { AreLong count (map values columns.old) }
    requires in_range { All (λ c. from + n ≤ length (values c)) others.now }
    ensures kinds { map column_type columns.new ≡ map column_type columns.old }
    ensures ok { OnOk result (map values columns.new
        ≡ append_each (map values columns.old) (map (value_range from n) others.now)) }
    ensures err { OnErr result (map values columns.new ≡ map values columns.old) }
{
    for i in 0..columns.len() {
        match columns[i].append_range(&others[i], from, n) {
            Ok(()) => {}
            Err(memory) => {
                truncate_columns(columns, count);
                return Err(memory);
            }
        }
    }
    Ok(())
}

/// Appends each value of the row to the column beside it; after an error none has changed.
pub(crate) fn push_all(columns: &mut [Column], row: &[Value], count: usize) -> Result<(), Memory>
    requires fits { FitsTypes (map column_type columns.old) row.now }
    requires long { AreLong count (map values columns.old) }
    ensures kinds { map column_type columns.new ≡ map column_type columns.old }
    ensures ok { OnOk result
        (map values columns.new
        ≡ append_each (map values columns.old) (map (λ v. v ∷ []) row.now)) }
    ensures err { OnErr result (map values columns.new ≡ map values columns.old) }
{
    for i in 0..columns.len() {
        match columns[i].push_copy(&row[i]) {
            Ok(()) => {}
            Err(memory) => {
                truncate_columns(columns, count);
                return Err(memory);
            }
        }
    }
    Ok(())
}

pub(crate) fn kinds_of(alloc: Global, columns: &[Column]) -> Result<List<ColumnType>, Memory>
    ensures { IfOk result (λ l. l ≡ map column_type columns.now) }
{
    let mut kinds = Vec::with_capacity(alloc, columns.len())?;
    for column in columns {
        kinds.push(column.kind())?;
    }
    Ok(List::from_vec(kinds))
}

pub(crate) fn beside_all(
    mut columns: Vec<Column>,
    others: Vec<Column>,
) -> Result<List<Column>, Memory>
    ensures { IfOk result (λ l. l ≡ columns.items ++ others.items) }
{
    columns.try_reserve(others.len())?;
    for column in others {
        columns.push(column)?;
    }
    Ok(List::from_vec(columns))
}

pub(crate) fn gather_all(
    alloc: Global,
    columns: &[Column],
    places: &[usize],
    count: usize,
) -> Result<Vec<Column>, Memory>
    requires long { AreLong count (map values columns.now) }
    requires in_range { All (λ p. p < count) places.now }
    ensures kinds { IfOk result (λ v. map column_type v.items ≡ map column_type columns.now) }
    ensures gathered { IfOk result (λ v. map values v.items
        ≡ map (λ column. map (value_at column) places.now) (map values columns.now)) }
{
    let mut gathered = Vec::new(alloc);
    for column in columns {
        gathered.push(column.gather(places)?)?;
    }
    Ok(gathered)
}

pub(crate) fn row_of(
    alloc: Global,
    columns: &[Column],
    i: usize,
    count: usize,
) -> Result<List<Value>, Memory>
    requires long { AreLong count (map values columns.now) }
    requires in_range { i < count }
    ensures { IfOk result
        (λ row. row ≡ map (λ column. value_at column i) (map values columns.now)) }
{
    let mut row = Vec::new(alloc);
    for column in columns {
        row.push(column.value(i)?)?;
    }
    Ok(List::from_vec(row))
}

pub(crate) fn remove_front_all(columns: &mut [Column], n: usize)
    ensures kinds { map column_type columns.new ≡ map column_type columns.old }
    ensures rest { map values columns.new ≡ map (drop n) (map values columns.old) }
{
    for i in 0..columns.len() {
        columns[i].remove_front(n);
    }
}
