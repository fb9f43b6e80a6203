// ORDER BY: the keys' places among the output names.
ghost use Rattle.std.specs.Prelude.{◌≡◌, ℕ, List as Seq, bytes_eq, filter, length, map, IfOk};
ghost use Rattle.query_model.specs.Names.{place_of, bad_order_key as order_refusal, sort_key, OrderKey as Key};

use crate::query::{OrderKey, Refusal};
use chunk_data::{Bytes, List, Memory, SortKey};
use std::alloc::Global;

fn is_name(name: &[u8], other: &Bytes) -> bool
    ensures { result ≡ bytes_eq name.now other.now }
{
    name == other.as_slice()
}

fn count_named(name: &[u8], names: &[Bytes]) -> usize
    ensures { result ≡ length (filter (bytes_eq name.now) names.now) }
{
    names.iter().filter(|other| is_name(name, other)).count()
}

/// A key that is not the output name of exactly one item.
pub(crate) fn bad_order_key(order: &[OrderKey], names: &[Bytes]) -> Result<Option<Refusal>, Memory>
    ensures { IfOk result (λ refusal. refusal ≡ order_refusal names.now order.now) }
{
    let mut rest = order;
    while let Some((key, behind)) = rest.split_first() {
        if count_named(key.name.as_slice(), names) != 1 {
            let carried = key.name.copy()?;
            return Ok(Some(Refusal::BadOrderKey(carried)));
        }
        rest = behind;
    }
    Ok(None)
}

fn name_place(name: &[u8], names: &[Bytes]) -> usize
    ensures { result ≡ place_of (bytes_eq name.now) names.now }
{
    for i in 0..names.len() {
        if is_name(name, &names[i]) {
            return i;
        }
    }
    names.len()
}

/// The place of a key. More than 2^32 names are a want of memory.
fn place_key(key: &OrderKey, names: &[Bytes]) -> Result<SortKey, Memory>
    ensures { IfOk result (λ placed. placed ≡ sort_key names.now key.now) }
{
    match u32::try_from(name_place(key.name.as_slice(), names)) {
        Ok(column) => Ok(SortKey {
            column,
            descending: key.descending,
        }),
        Err(_) => Err(Memory),
    }
}

pub(crate) fn place_order(
    alloc: Global,
    order: &[OrderKey],
    names: &[Bytes],
) -> Result<List<SortKey>, Memory>
    ensures { IfOk result (λ placed. placed ≡ map (sort_key names.now) order.now) }
{
    let mut keys = Vec::with_capacity(alloc, order.len())?;
    for key in order {
        let placed = place_key(key, names)?;
        keys.push(placed)?;
    }
    Ok(List::from_vec(keys))
}
