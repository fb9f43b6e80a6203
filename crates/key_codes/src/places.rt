ghost use Rattle.std.specs.Option.{option_map};
ghost use Rattle.std.specs.Prelude.{◌≡◌, ◌<◌, ◌++◌, ◌||◌, ◌∷◌, ◌^◌, [], cond, length, map, replicate, IfSome, OnOk, IfOk, false, true, All};
ghost use Rattle.chunk_data.specs.Names.{column_type, is_null, is_text, plain_type, row_at, stored_values, value_at, values};
ghost use Rattle.chunk_data.specs.declared.typed_value.PlainType.TheVariants as plain;
ghost use Rattle.chunk_data.specs.declared.typed_value.Value.TheVariants as value;
ghost use Rattle.key_codes.specs.Keys.{FindsCode, FindsCodes, FindsNull, HasKey, IsCell, IsNullWithin, beside_null as code_place, byte_code, byte_codes, is_valid_at, key_at, key_bytes, null_mark, number_codes, row_code, valid_codes, value_bytes, value_code, whole_codes, with_null};

use chunk_data::{Chunk, Column, Memory, PlainSlice, Texts};
use indexmap::IndexSet;
use std::alloc::Global;

fn bits_of_int(number: i64) -> u64
    ensures code { result ∷ [] ≡ value_code (value.Int number) }
    ensures cell { IsCell plain.Int64 (value.Int number) }
{
    number.cast_unsigned()
}

fn int_bits(alloc: Global, numbers: &[i64]) -> Result<Vec<u64>, Memory>
    ensures codes { IfOk result
        (λ v. map (λ n. n ∷ []) v.items ≡ map value_code (map value.Int numbers.now)) }
    ensures cells { OnOk result (All (IsCell plain.Int64) (map value.Int numbers.now)) }
{
    let mut bits = Vec::with_capacity(alloc, numbers.len())?;
    for i in 0..numbers.len() {
        bits.push(bits_of_int(numbers[i]))?;
    }
    Ok(bits)
}

fn uint_bits(alloc: Global, numbers: &[u64]) -> Result<Vec<u64>, Memory>
    ensures codes { IfOk result
        (λ v. map (λ n. n ∷ []) v.items ≡ map value_code (map value.UInt numbers.now)) }
    ensures cells { OnOk result (All (IsCell plain.UInt64) (map value.UInt numbers.now)) }
{
    let mut bits = Vec::with_capacity(alloc, numbers.len())?;
    for i in 0..numbers.len() {
        bits.push(numbers[i])?;
    }
    Ok(bits)
}

/// The bits of the numbers that a column keeps, where it may keep any at a NULL.
pub(crate) fn bits_of(alloc: Global, column: &Column) -> Result<Vec<u64>, Memory>
    requires { is_text (column_type column.now) ≡ false }
    ensures codes { IfOk result
        (λ v. map (λ n. n ∷ []) v.items ≡ map value_code (stored_values column.now)) }
    ensures cells { OnOk result
        (All (IsCell (plain_type (column_type column.now))) (stored_values column.now)) }
{
    match column.plain() {
        PlainSlice::Ints(numbers) => int_bits(alloc, numbers),
        PlainSlice::UInts(numbers) => uint_bits(alloc, numbers),
        PlainSlice::Texts(_) => unreachable!(),
    }
}

/// The texts that a column keeps, where it may keep any at a NULL.
pub(crate) fn texts_of(column: &Column) -> &Texts
    requires { is_text (column_type column.now) ≡ true }
    ensures { stored_values column.now ≡ map value.Text result.now }
{
    match column.plain() {
        PlainSlice::Texts(texts) => texts,
        PlainSlice::Ints(_) | PlainSlice::UInts(_) => unreachable!(),
    }
}

// The place of the one key of no columns, which is there once keys are added.
fn place_of_whole(some: &mut bool, adds: bool) -> usize
    ensures { FindsCode adds [] (whole_codes some.old) (whole_codes some.new) result }
{
    *some = *some || adds;
    0
}

/// The places of keys without columns, all of which are one.
pub(crate) fn whole_places(
    some: &mut bool,
    alloc: Global,
    adds: bool,
    rows: usize,
) -> Result<Vec<usize>, Memory>
    ensures { IfOk result
        (λ v. FindsCodes adds (replicate rows []) (whole_codes some.old) (whole_codes some.new)
        v.items) }
{
    let mut found = Vec::with_capacity(alloc, rows)?;
    for _i in 0..rows {
        found.push(place_of_whole(some, adds))?;
    }
    Ok(found)
}

// Whether value i isn't NULL; without validity none is.
fn is_valid(validity: Option<&[bool]>, i: usize) -> bool
    requires { IfSome validity (λ v. i < length v.now) }
    ensures { result ≡ is_valid_at (option_map (λ v. v.now) validity.entry) i }
{
    match validity {
        None => true,
        Some(validity) => validity[i],
    }
}

// The place of NULL, which goes behind the codes of values if it is new and keys are added.
fn place_of_null(null: &mut Option<usize>, adds: bool, count: usize) -> usize
    ensures { FindsNull adds count null.old null.new result }
{
    if let Some(place) = *null {
        return place;
    }
    if adds {
        *null = Some(count);
    }
    count
}

// The place of the code of a value, among the codes of values and that of NULL.
fn beside_null(null: Option<usize>, place: usize) -> Result<usize, Memory>
    ensures { IfOk result (λ found. found ≡ code_place null place) }
{
    match null {
        None => Ok(place),
        Some(null) => {
            if place < null {
                return Ok(place);
            }
            match place.checked_add(1) {
                Some(behind) => Ok(behind),
                None => Err(Memory),
            }
        }
    }
}

// The place of the number among those seen, where it goes to the end if it is new and keys are
// added.
fn place_of_number(seen: &mut IndexSet<u64>, adds: bool, number: u64) -> Result<usize, Memory>
    ensures { IfOk result
        (FindsCode adds (number ∷ []) (number_codes seen.old) (number_codes seen.new)) }
{
    if !adds {
        return match seen.get_index_of(&number) {
            Some(place) => Ok(place),
            None => Ok(seen.len()),
        };
    }
    match seen.insert_full(number) {
        Ok((place, _)) => Ok(place),
        Err(_) => Err(Memory),
    }
}

// The same of a value that may be NULL.
fn place_of_valid_number(
    seen: &mut IndexSet<u64>,
    null: &mut Option<usize>,
    adds: bool,
    valid: bool,
    number: u64,
) -> Result<usize, Memory>
    requires { IsNullWithin null.old (number_codes seen.old) }
    ensures finds { IfOk result (FindsCode adds (cond valid (number ∷ []) [])
        (with_null null.old (number_codes seen.old)) (with_null null.new (number_codes seen.new))) }
    ensures within { OnOk result (IsNullWithin null.new (number_codes seen.new)) }
{
    if !valid {
        return Ok(place_of_null(null, adds, seen.len()));
    }
    let place = place_of_number(seen, adds, number)?;
    beside_null(*null, place)
}

pub(crate) fn number_places(
    seen: &mut IndexSet<u64>,
    null: &mut Option<usize>,
    alloc: Global,
    adds: bool,
    numbers: &[u64],
    validity: Option<&[bool]>,
) -> Result<Vec<usize>, Memory>
    requires within { IsNullWithin null.old (number_codes seen.old) }
    requires long { IfSome validity (λ v. length v.now ≡ length numbers.now) }
    ensures finds { IfOk result
        (λ v. FindsCodes adds
        (valid_codes (option_map (λ v. v.now) validity.entry) (map (λ n. n ∷ []) numbers.now))
        (with_null null.old (number_codes seen.old)) (with_null null.new (number_codes seen.new))
        v.items) }
    ensures within { OnOk result (IsNullWithin null.new (number_codes seen.new)) }
{
    let mut found = Vec::with_capacity(alloc, numbers.len())?;
    for i in 0..numbers.len() {
        let valid = is_valid(validity, i);
        found.push(place_of_valid_number(seen, null, adds, valid, numbers[i])?)?;
    }
    Ok(found)
}

// The place of the bytes among those seen, where they go to the end if they are new and keys are
// added.
fn place_of(
    seen: &mut IndexSet<Vec<u8>>,
    alloc: Global,
    adds: bool,
    code: &[u8],
) -> Result<usize, Memory>
    ensures { IfOk result
        (FindsCode adds (byte_code code.now) (byte_codes seen.old) (byte_codes seen.new)) }
{
    if let Some(place) = seen.get_index_of(code) {
        return Ok(place);
    }
    if !adds {
        return Ok(seen.len());
    }
    match seen.insert_full(Vec::from_slice(alloc, code)?) {
        Ok((place, _)) => Ok(place),
        Err(_) => Err(Memory),
    }
}

// The same of a text that may be NULL.
fn place_of_valid_text(
    seen: &mut IndexSet<Vec<u8>>,
    null: &mut Option<usize>,
    alloc: Global,
    adds: bool,
    valid: bool,
    text: &[u8],
) -> Result<usize, Memory>
    requires { IsNullWithin null.old (byte_codes seen.old) }
    ensures finds { IfOk result (FindsCode adds (cond valid (byte_code text.now) [])
        (with_null null.old (byte_codes seen.old)) (with_null null.new (byte_codes seen.new))) }
    ensures within { OnOk result (IsNullWithin null.new (byte_codes seen.new)) }
{
    if !valid {
        return Ok(place_of_null(null, adds, seen.len()));
    }
    let place = place_of(seen, alloc, adds, text)?;
    beside_null(*null, place)
}

pub(crate) fn text_places(
    seen: &mut IndexSet<Vec<u8>>,
    null: &mut Option<usize>,
    alloc: Global,
    adds: bool,
    texts: &Texts,
    validity: Option<&[bool]>,
) -> Result<Vec<usize>, Memory>
    requires within { IsNullWithin null.old (byte_codes seen.old) }
    requires long { IfSome validity (λ v. length v.now ≡ length texts.now) }
    ensures finds { IfOk result
        (λ v. FindsCodes adds
        (valid_codes (option_map (λ v. v.now) validity.entry) (map byte_code texts.now))
        (with_null null.old (byte_codes seen.old)) (with_null null.new (byte_codes seen.new))
        v.items) }
    ensures within { OnOk result (IsNullWithin null.new (byte_codes seen.new)) }
    ensures cells { OnOk result (All (λ text. length text < 2 ^ 64) texts.now) }
{
    let mut found = Vec::with_capacity(alloc, texts.len())?;
    for i in 0..texts.len() {
        let valid = is_valid(validity, i);
        found.push(place_of_valid_text(seen, null, alloc, adds, valid, texts.get(i))?)?;
    }
    Ok(found)
}

// A value's bytes behind those that are there, and whether it is NULL.
fn push_value(code: &mut Vec<u8>, column: &Column, i: usize) -> Result<bool, Memory>
    requires { i < length (values column.now) }
    ensures null { IfOk result (λ null. null ≡ is_null (value_at (values column.now) i)) }
    ensures code { OnOk result
        (code.new.items ≡ code.old.items ++ value_bytes (value_at (values column.now) i)) }
    ensures cell { IsCell (plain_type (column_type column.now)) (value_at (values column.now) i) }
{
    if !column.is_valid(i) {
        code.extend_from_slice(&0_u64.to_le_bytes())?;
        return Ok(true);
    }
    match column.plain() {
        PlainSlice::Ints(numbers) => code.extend_from_slice(&numbers[i].to_le_bytes())?,
        PlainSlice::UInts(numbers) => code.extend_from_slice(&numbers[i].to_le_bytes())?,
        PlainSlice::Texts(texts) => {
            let text = texts.get(i);
            code.extend_from_slice(&(text.len() as u64).to_le_bytes())?;
            code.extend_from_slice(text)?;
        }
    }
    Ok(false)
}

// Which values of row i's key are NULL, behind the bytes of all.
fn push_marks(code: &mut Vec<u8>, places: &[usize], chunk: &Chunk, i: usize) -> Result<(), Memory>
    requires within { All (λ c. c < length chunk.now.types) places.now }
    requires row { i < length chunk.now.rows }
    ensures { OnOk result (code.new.items ≡ code.old.items
        ++ map null_mark (key_at places.now (row_at chunk.now.rows i))) }
{
    for place in places {
        let valid = chunk.column(*place).is_valid(i);
        code.push(!valid as u8)?;
    }
    Ok(())
}

fn either(a: bool, b: bool) -> bool
    ensures { result ≡ (a || b) }
{
    a || b
}

// Leaves in `code` the bytes of row i's key.
fn write_code(code: &mut Vec<u8>, places: &[usize], chunk: &Chunk, i: usize) -> Result<(), Memory>
    requires within { All (λ c. c < length chunk.now.types) places.now }
    requires row { i < length chunk.now.rows }
    ensures code { OnOk result
        (code.new.items ≡ key_bytes (key_at places.now (row_at chunk.now.rows i))) }
    ensures cells { OnOk result
        (HasKey chunk.now.types places.now (row_at chunk.now.rows i)) }
{
    code.clear();
    let mut some_null = false;
    for place in places {
        let null = push_value(code, chunk.column(*place), i)?;
        some_null = either(some_null, null);
    }
    if some_null {
        push_marks(code, places, chunk, i)?;
    }
    Ok(())
}

/// The places of keys of several values, by the bytes of all.
pub(crate) fn code_places(
    seen: &mut IndexSet<Vec<u8>>,
    alloc: Global,
    adds: bool,
    places: &[usize],
    chunk: &Chunk,
) -> Result<Vec<usize>, Memory>
    requires within { All (λ c. c < length chunk.now.types) places.now }
    requires several { 1 < length places.now }
    ensures finds { IfOk result
        (λ v. FindsCodes adds (map (row_code places.now) chunk.now.rows) (byte_codes seen.old)
        (byte_codes seen.new) v.items) }
    ensures cells { OnOk result (All (HasKey chunk.now.types places.now) chunk.now.rows) }
{
    let mut code = Vec::new(alloc);
    let mut found = Vec::with_capacity(alloc, chunk.rows())?;
    for i in 0..chunk.rows() {
        write_code(&mut code, places, chunk, i)?;
        found.push(place_of(seen, alloc, adds, code.as_slice())?)?;
    }
    Ok(found)
}
