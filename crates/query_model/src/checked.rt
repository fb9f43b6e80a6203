// Queries as they are checked: places in the place of names.
use crate::query::{AggCall, CondOf, ExprOf, Span};
use chunk_data::{Bytes, ColumnType, List, SortKey};

/// An expression over the places of columns, counted from 0.
pub type Expr = ExprOf<u32>;

/// A condition over the places of columns, counted from 0.
pub type Cond = CondOf<u32>;

/// A declared table by its place, from 0, or `numbers(N)`.
#[derive(Clone, Copy, PartialEq, Eq)]
pub enum TableUse {
    Declared(u32),
    Numbers(u64),
}

/// A pair of columns that must agree: a place in the FROM table and one in the JOIN table.
#[derive(Clone, Copy, PartialEq, Eq)]
pub struct KeyPair {
    pub left: u32,
    pub right: u32,
}

/// The table that is joined, and the pairs on which its rows must agree.
#[derive(Drop)]
pub struct CheckedJoin {
    pub table: TableUse,
    pub pairs: List<KeyPair>,
}

/// Groups: the places of the keys in From, and the calls of the items and then of HAVING. HAVING
/// and `picks` have places in a row of the keys and then the calls. `lone` says that there is no
/// GROUP BY.
#[derive(Drop)]
pub struct Grouping {
    pub keys: List<u32>,
    pub calls: List<AggCall<u32>>,
    pub having: Option<Cond>,
    pub picks: List<u32>,
    pub lone: bool,
}

/// What SELECT makes of rows: the items' values, or groups.
#[derive(Drop)]
pub enum Shape {
    Plain(List<Expr>),
    Grouped(Grouping),
}

/// A query with places where the parsed one has names. `order` has places of items, and `names` and
/// `types` are those of the items.
#[derive(Drop)]
pub struct Checked {
    pub from: TableUse,
    pub join: Option<CheckedJoin>,
    pub filter: Option<Cond>,
    pub shape: Shape,
    pub names: List<Bytes>,
    pub types: List<ColumnType>,
    pub order: List<SortKey>,
    pub limit: Option<Span>,
}
