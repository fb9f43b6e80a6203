// JOIN: the pairs of ON, and the join with places.
ghost use Rattle.std.specs.Prelude.{◌≡◌, ◌≤◌, length, map, IfOk};
ghost use Rattle.std.specs.List.{list_all};
ghost use Rattle.query_model.specs.Names.{is_join_pair as fits_tables, joins as are_joined, same_known_type, BothOrNone, pair_of, IsPlacedJoin, pairs_fit as all_pairs_fit};

use crate::analysis::columns::FromColumn;
use crate::analysis::names::meant_type;
use crate::analysis::placing::{column_place, table_use};
use crate::checked::{CheckedJoin, KeyPair};
use crate::query::{ColumnRef, Join, NamePair, Schema};
use chunk_data::{ColumnType, List, Memory};
use std::alloc::Global;

fn are_of_one_type(a: Option<ColumnType>, b: Option<ColumnType>) -> bool
    ensures { result ≡ same_known_type a b }
{
    match a {
        Some(s) => match b {
            Some(t) => s.is_alike(t),
            None => false,
        },
        None => false,
    }
}

/// Whether `a` is a column of the one table, and `b` one of the other and of its type.
fn joins(a: &ColumnRef, b: &ColumnRef, left: &[FromColumn], right: &[FromColumn]) -> bool
    ensures { result ≡ are_joined left.now right.now a.now b.now }
{
    are_of_one_type(meant_type(a, left), meant_type(b, right))
}

fn is_join_pair(pair: &NamePair, left: &[FromColumn], right: &[FromColumn]) -> bool
    ensures { result ≡ fits_tables left.now right.now pair.now }
{
    joins(&pair.left, &pair.right, left, right) || joins(&pair.right, &pair.left, left, right)
}

fn all_fit(pairs: &[NamePair], left: &[FromColumn], right: &[FromColumn]) -> bool
    ensures { result ≡ list_all (fits_tables left.now right.now) pairs.now }
{
    pairs.iter().all(|pair| is_join_pair(pair, left, right))
}

/// Whether each pair of ON has one column of each table, of one type.
pub(crate) fn pairs_fit(join: &Option<Join>, left: &[FromColumn], right: &[FromColumn]) -> bool
    ensures { result ≡ all_pairs_fit left.now right.now join.now }
{
    match join {
        Some(join) => all_fit(join.pairs.as_slice(), left, right),
        None => true,
    }
}

/// A pair with places, that of the FROM table on the left whichever way it is written.
fn place_pair(pair: &NamePair, left: &[FromColumn], right: &[FromColumn]) -> KeyPair
    requires few { length left.now ≤ 64 }
    requires few_right { length right.now ≤ 64 }
    ensures { result ≡ pair_of left.now right.now pair.now }
{
    if joins(&pair.left, &pair.right, left, right) {
        KeyPair {
            left: column_place(&pair.left, left),
            right: column_place(&pair.right, right),
        }
    } else {
        KeyPair {
            left: column_place(&pair.right, left),
            right: column_place(&pair.left, right),
        }
    }
}

fn place_pairs(
    alloc: Global,
    pairs: &[NamePair],
    left: &[FromColumn],
    right: &[FromColumn],
) -> Result<List<KeyPair>, Memory>
    requires few { length left.now ≤ 64 }
    requires few_right { length right.now ≤ 64 }
    ensures { IfOk result (λ placed. placed ≡ map (pair_of left.now right.now) pairs.now) }
{
    let mut placed = Vec::with_capacity(alloc, pairs.len())?;
    for pair in pairs {
        placed.push(place_pair(pair, left, right))?;
    }
    Ok(List::from_vec(placed))
}

pub(crate) fn place_join(
    alloc: Global,
    join: &Option<Join>,
    tables: &[Schema],
    left: &[FromColumn],
    right: &[FromColumn],
) -> Result<Option<CheckedJoin>, Memory>
    requires few { length left.now ≤ 64 }
    requires few_right { length right.now ≤ 64 }
    ensures { IfOk result (BothOrNone (IsPlacedJoin tables.now left.now right.now) join.now) }
{
    match join {
        Some(join) => {
            let table = table_use(&join.table, tables)?;
            let pairs = place_pairs(alloc, join.pairs.as_slice(), left, right)?;
            Ok(Some(CheckedJoin { table, pairs }))
        }
        None => Ok(None),
    }
}
