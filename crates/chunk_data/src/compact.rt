ghost use Rattle.std.specs.Prelude.{◌≡◌, length, vec_len, slice_index_or, map, ◌<◌, IfOk, pos, ◌≤◌, drop, false, take, All};
ghost use Rattle.chunk_data.specs.Rows.{kept};

use crate::lists::Memory;

/// Keeps the elements whose place in the mask has true, in order, without a branch.
#[tactic(auto, using(crate::proofs::Keeps::keeps))]
pub(crate) fn keep_items<T: Copy>(items: &mut Vec<T>, mask: &[bool])
    requires { length mask.now ≡ length items.old.items }
    ensures { items.new.items ≡ kept mask.now items.old.items }
{
    let mut count = 0;
    for i in 0..items.len() {
        items[count] = items[i];
        count += usize::from(mask[i]);
    }
    items.truncate(count);
}

pub(crate) fn gather_ints(items: &Vec<i64>, places: &[usize]) -> Result<Vec<i64>, Memory>
    requires { All (λ p. p < length items.now.items) places.now }
    ensures { IfOk result
        (λ v. v.items ≡ map (λ p. slice_index_or items.now.items p (pos 0)) places.now) }
{
    let numbers = items.as_slice();
    Ok(
        places
            .iter()
            .map(|p| numbers[*p])
            .collect(*items.allocator())?,
    )
}

pub(crate) fn gather_uints(items: &Vec<u64>, places: &[usize]) -> Result<Vec<u64>, Memory>
    requires { All (λ p. p < length items.now.items) places.now }
    ensures { IfOk result
        (λ v. v.items ≡ map (λ p. slice_index_or items.now.items p 0) places.now) }
{
    let numbers = items.as_slice();
    Ok(
        places
            .iter()
            .map(|p| numbers[*p])
            .collect(*items.allocator())?,
    )
}

pub(crate) fn gather_bools(items: &Vec<bool>, places: &[usize]) -> Result<Vec<bool>, Memory>
    requires { All (λ p. p < length items.now.items) places.now }
    ensures { IfOk result
        (λ v. v.items ≡ map (λ p. slice_index_or items.now.items p false) places.now) }
{
    let truths = items.as_slice();
    Ok(
        places
            .iter()
            .map(|p| truths[*p])
            .collect(*items.allocator())?,
    )
}

pub(crate) fn copy_items<T: Copy>(items: &Vec<T>) -> Result<Vec<T>, Memory>
    ensures { IfOk result (λ v. v.items ≡ items.now.items) }
{
    Ok(Vec::from_slice(*items.allocator(), items.as_slice())?)
}

pub(crate) fn remove_front<T: Copy>(items: &mut Vec<T>, n: usize)
    ensures { items.new.items ≡ drop n items.old.items }
{
    let count = items.len();
    if count <= n {
        items.clear();
        return;
    }
    items.copy_within(n.., 0);
    items.truncate(count - n);
}
