// What a processor is loaded with.
ghost use Rattle.std.specs.Prelude.{◌≡◌};
ghost use Rattle.query_model.specs.Kinds.{kind_of};

use crate::checked::{Cond, Expr, KeyPair};
use crate::query::{AggOp, Span};
use chunk_data::{Bytes, ColumnType, List, SortKey};

/// The kinds of processors.
#[derive(Clone, Copy, Debug, PartialEq, Eq)]
pub enum Kind {
    Csv,
    List,
    Numbers,
    Filter,
    Expression,
    Resize,
    PartialAggregate,
    MergeAggregate,
    HashJoin,
    Sort,
    MergeSorted,
    Limit,
    Collect,
}

/// A part of a table, or its list file.
#[derive(Drop)]
pub struct PartSpec {
    /// The place of the table among the declarations, from 0.
    pub table: u32,
    /// The place of the part in its table, from 1; of no meaning for a list file.
    pub part: u32,
    pub path: Bytes,
    pub types: List<ColumnType>,
    /// Whether the first record is passed over.
    pub header: bool,
    /// The most rows of a chunk; 0 is read as 1.
    pub rows: u32,
}

/// The state of an aggregate call, and the type of its column.
#[derive(Clone, Copy, PartialEq, Eq)]
pub struct StateCall {
    pub op: AggOp,
    pub kind: ColumnType,
}

/// Groups by the first columns, and a state for each call.
#[derive(Drop)]
pub struct GroupSpec {
    pub keys: List<ColumnType>,
    pub calls: List<StateCall>,
    /// Whether there is no GROUP BY, so that no rows make one row of defaults.
    pub lone: bool,
    /// The most rows of a chunk; 0 is read as 1.
    pub rows: u32,
}

/// A join of two inputs of these types, on pairs of their columns.
#[derive(Drop)]
pub struct JoinSpec {
    pub pairs: List<KeyPair>,
    pub left: List<ColumnType>,
    pub right: List<ColumnType>,
    /// The most rows of a chunk; 0 is read as 1.
    pub rows: u32,
}

/// An order of rows of these types.
#[derive(Drop)]
pub struct SortSpec {
    pub keys: List<SortKey>,
    pub types: List<ColumnType>,
    /// The most rows of a chunk; 0 is read as 1.
    pub rows: u32,
}

/// What a processor is to do.
#[derive(Drop)]
pub enum Spec {
    Csv(PartSpec),
    List(PartSpec),
    /// How many numbers, and the most rows of a chunk, of which 0 is read as 1.
    Numbers(u64, u32),
    Filter(Cond),
    Expression(List<Expr>),
    Resize,
    PartialAggregate(GroupSpec),
    MergeAggregate(GroupSpec),
    HashJoin(JoinSpec),
    Sort(SortSpec),
    MergeSorted(SortSpec),
    Limit(Span),
    Collect,
}

impl Spec {
    /// The kind of processor that the spec is for.
    pub fn kind(&self) -> Kind
        ensures { result ≡ kind_of self.now }
    {
        match self {
            Spec::Csv(_) => Kind::Csv,
            Spec::List(_) => Kind::List,
            Spec::Numbers(_, _) => Kind::Numbers,
            Spec::Filter(_) => Kind::Filter,
            Spec::Expression(_) => Kind::Expression,
            Spec::Resize => Kind::Resize,
            Spec::PartialAggregate(_) => Kind::PartialAggregate,
            Spec::MergeAggregate(_) => Kind::MergeAggregate,
            Spec::HashJoin(_) => Kind::HashJoin,
            Spec::Sort(_) => Kind::Sort,
            Spec::MergeSorted(_) => Kind::MergeSorted,
            Spec::Limit(_) => Kind::Limit,
            Spec::Collect => Kind::Collect,
        }
    }
}
